// When the values of a setting are refused.
//
// Each check here looks at values alone: refusal 21 is for a place, a port or a set of ports, 22 for a port's mask, 24 for a
// size, a yes/no number or a mission's number, 25 for an address of the wrong class. Page 01 tests them in the order 21, 25, 22, 24, 23, 35: numbers and
// order are their caller's, who also has what needs the board, the mission or the list (a port set up, a same entry elsewhere). A check is total
// by itself: a mask is judged for an address of any class.
#![tactic(auto)]

ghost use Rattle.std.specs.Prelude.{◌≡◌, not};
ghost use Rattle.checks.specs.Order.{check_of};
ghost use Rattle.settings.specs.Refusals.{
  port_class_refused,
  group_class_refused,
  path_class_refused,
  ones_refused,
  port_mask_refused,
  mtu_refused,
  flag_refused,
  place_refused,
};
ghost use Rattle.settings.specs.Sets.{is_ready, set_refused};

use address::{Address, Class, Mask, PathAddress, PathForm};
use checks::Check;

// Refusal 25 of a port: its address is unicast.
pub fn check_port_class(a: Address) -> Check
    ensures { result ≡ check_of (port_class_refused a) }
{
    let Class::Unicast = address::class_of(a) else {
        return Check::Failed;
    };
    Check::Passed
}

// Refusal 25 of a group: its address is multicast.
pub fn check_group_class(a: Address) -> Check
    ensures { result ≡ check_of (group_class_refused a) }
{
    let Class::Multicast = address::class_of(a) else {
        return Check::Failed;
    };
    Check::Passed
}

// Refusal 25 of a path: its address is a good path.
pub fn check_path_class(p: PathAddress) -> Check
    ensures { result ≡ check_of (path_class_refused p) }
{
    let PathForm::Valid = address::path_form(p) else {
        return Check::Failed;
    };
    Check::Passed
}

// The ones of a port's mask: 8 to 30, and exactly 24 in net 10, whose domains are 10.x.y.
fn check_ones(a: Address, ones: u32) -> Check
    ensures { result ≡ check_of (ones_refused a ones) }
{
    if ones < 8 {
        return Check::Failed;
    }
    if 30 < ones {
        return Check::Failed;
    }
    if !networks::in_net_10(a) {
        return Check::Passed;
    }
    if ones != 24 {
        return Check::Failed;
    }
    Check::Passed
}

// Refusal 22 of a port: the mask is ones and then zeros, of a good number, and the host bits of the address are not all ones, which
// would make it its own subnet's broadcast. Host bits all zero are taken.
pub fn check_port_mask(a: Address, m: Mask) -> Check
    ensures { result ≡ check_of (port_mask_refused a m) }
{
    let Some(ones) = address::mask_form(m) else {
        return Check::Failed;
    };
    let Check::Passed = check_ones(a, ones) else {
        return Check::Failed;
    };
    if networks::subnet_broadcast(a, m).0 == a.0 {
        return Check::Failed;
    }
    Check::Passed
}

// The largest MTU of a port: the longest datagram.
const LARGEST_MTU: u32 = 8191;

// Refusal 24 of a port: the MTU is 1 to that.
pub fn check_mtu(mtu: u32) -> Check
    ensures { result ≡ check_of (mtu_refused mtu) }
{
    if mtu < 1 {
        return Check::Failed;
    }
    if LARGEST_MTU < mtu {
        return Check::Failed;
    }
    Check::Passed
}

// Refusal 24 of a yes/no number: router or host, delivered here or not.
pub fn check_flag(v: u32) -> Check
    ensures { result ≡ check_of (flag_refused v) }
{
    if 1 < v {
        return Check::Failed;
    }
    Check::Passed
}

// Refusal 21 of a place or of a port's number among so many, and 24 of a mission's.
pub fn check_place(place: u32, places: u32) -> Check
    ensures { result ≡ check_of (place_refused place places) }
{
    if place < places {
        return Check::Passed;
    }
    Check::Failed
}

// Refusal 21 of one port: it is one of the eight, and in the set of those that are set up.
pub fn check_ready(port: u32, ready: u32) -> Check
    ensures { result ≡ check_of (not (is_ready port ready)) }
{
    if sets::PORTS <= port {
        return Check::Failed;
    }
    if (ready >> port) % 2 != 1 {
        return Check::Failed;
    }
    Check::Passed
}

// The set of ports 0 to 7.
const ALL_PORTS: u32 = 0xFF;

// Refusal 21 of a set of ports: each is one of the eight, and set up.
pub fn check_set(set: u32, ready: u32) -> Check
    ensures { result ≡ check_of (set_refused set ready) }
{
    if set & ready & ALL_PORTS != set {
        return Check::Failed;
    }
    Check::Passed
}
