// What the addresses of a header name.
//
// An address of four octets names the same system everywhere. An address of one octet names one only together with the domain it
// stands in: the first three octets of the port that it came in by, and never of a port that it goes out by (page 01, step 5; that slip
// once sent a dose to another domain). So what a header names is a function of the arrival port's address and the header, stated
// once here; everything later compares names and never bare octets. The awkward case is an IPv6 header, which is read and not
// carried: what it names has a case of its own, which no check lets through.
#![tactic(auto)]

pub mod asked;
pub mod flood;

ghost use Rattle.std.specs.Prelude.{◌≡◌};
ghost use Rattle.checks.specs.Order.{check_of};
ghost use Rattle.meaning.specs.Names.{
  filled_in,
  aim_of,
  origin_of,
  is_basic,
  is_bound,
  routing_asked,
  carried_routing,
  not_carried,
  no_domain,
  not_unicast,
  bad_source,
};

use address::{Address, Class, PathAddress};
use checks::Check;
use header::{Addresses, Fields, Qos};

// The routing requirement of a flood (003, table 3-7).
pub const FLOOD_ROUTING: u8 = 3;

// What a destination names: an end system or a group of them, a path, or a system that is not reached by what is carried here.
#[derive(Clone, Copy)]
pub enum Aim {
    Node(Address),
    Path(PathAddress),
    Uncarried,
}

// An address of one octet with the first three of the port.
pub fn filled_in(port: Address, octet: u8) -> u32
    ensures { result ≡ filled_in port.0 octet }
{
    networks::domain_of(port) * 256 + octet as u32
}

// What the destination names at a port.
pub fn aim_of(port: Address, a: Addresses) -> Aim
    ensures { result ≡ aim_of port.0 a }
{
    match a {
        Addresses::BasicPath(d) => Aim::Path(PathAddress(filled_in(port, d))),
        Addresses::ExtendedPath(p) => Aim::Path(p),
        Addresses::BasicEndSystem(d, _) => Aim::Node(Address(filled_in(port, d))),
        Addresses::ExtendedEndSystem(d, _) => Aim::Node(d),
        Addresses::Ipv6(_, _) => Aim::Uncarried,
    }
}

// What the source names at a port, where there is one.
#[tactic(auto, using(crate::proofs::Laws::from_filled), unfolding(crate::specs::Names::origin_of))]
pub fn origin_of(port: Address, a: Addresses) -> Option<Address>
    ensures { result ≡ origin_of port.0 a }
{
    match a {
        Addresses::BasicEndSystem(_, s) => Some(Address(filled_in(port, s))),
        Addresses::ExtendedEndSystem(_, s) => Some(s),
        Addresses::BasicPath(_) | Addresses::ExtendedPath(_) | Addresses::Ipv6(_, _) => None,
    }
}

// Whether the addresses are of one octet.
pub fn is_basic(a: Addresses) -> bool
    ensures { result ≡ is_basic a }
{
    matches!(a, Addresses::BasicPath(_) | Addresses::BasicEndSystem(_, _))
}

// 1 for a path of one octet, which is bound to its domain, else 0.
pub fn is_bound(a: Addresses) -> u32
    ensures { result ≡ is_bound a }
{
    match a {
        Addresses::BasicPath(_) => 1,
        Addresses::ExtendedPath(_) => 0,
        Addresses::BasicEndSystem(_, _) => 0,
        Addresses::ExtendedEndSystem(_, _) => 0,
        Addresses::Ipv6(_, _) => 0,
    }
}

// The routing requirements, 0 where there is no basic QOS.
pub fn routing_of(q: Option<Qos>) -> u8
    ensures { result ≡ routing_asked q }
{
    match q {
        None => 0,
        Some(q) => q.routing,
    }
}

// The routing requirements that are carried: point-to-point and flood.
fn is_carried(routing: u8) -> bool
    ensures { result ≡ carried_routing routing }
{
    if routing == 0 {
        return true;
    }
    routing == FLOOD_ROUTING
}

// Step 4: point-to-point routing or flood, and no IPv6 addresses.
pub fn check_carried(f: Fields) -> Check
    ensures { result ≡ check_of (not_carried f) }
{
    if !is_carried(routing_of(f.qos)) {
        return Check::Failed;
    }
    if header::flags::ipv6_flag(f.addresses) != 0 {
        return Check::Failed;
    }
    Check::Passed
}

// Step 5: an address of one octet needs a port in net 10 to supply its domain.
pub fn check_domain(port: Address, a: Addresses) -> Check
    ensures { result ≡ check_of (no_domain port a) }
{
    if is_basic(a) && !networks::in_net_10(port) {
        return Check::Failed;
    }
    Check::Passed
}

// A source names one system: its class is unicast.
fn check_unicast(a: Address) -> Check
    ensures { result ≡ check_of (not_unicast a.0) }
{
    if address::class_of(a) != Class::Unicast {
        return Check::Failed;
    }
    Check::Passed
}

// Step 6, second half: a source that is present is unicast.
pub fn check_origin(o: Option<Address>) -> Check
    ensures { result ≡ check_of (bad_source o) }
{
    match o {
        Some(a) => check_unicast(a),
        None => Check::Passed,
    }
}
