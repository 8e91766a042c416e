// What a destination is to this node: which line of the onward half it falls under, and the local half.
//
// An address of one of our ports is ours before anything else is asked, then a broadcast of one of our networks, whatever its class. What
// is ours, or asks for intermediate delivery, is delivered here; an unknown transport number refuses that (26) and nothing else.
//
// The awkward case is a group: it is ours by what its place says of the arrival port, and not by its address.
ghost use Rattle.std.specs.Prelude.{◌≡◌};
ghost use Rattle.verdict.specs.Rule.{class_target, over_broadcast, target_of, here_by, ours_by, wanted_here, local_of};

use crate::{Case, Local, Place, Survey, Target};
use address::Class;

// The line that a class falls under, no port asked.
fn class_target(class: Class) -> Target
    ensures { result ≡ class_target class }
{
    match class {
        Class::Invalid => Target::Route,
        Class::Unicast => Target::Route,
        Class::Multicast => Target::Group,
        Class::NetBroadcast => Target::Route,
        Class::DomainBroadcast => Target::Route,
        Class::ScpsBroadcast => Target::Route,
        Class::LimitedBroadcast => Target::Here,
    }
}

// A broadcast of ours is one, whatever its class, unless it is for this node alone.
fn over_broadcast(t: Target) -> Target
    ensures { result ≡ over_broadcast t }
{
    match t {
        Target::Here => Target::Here,
        Target::Broadcast => Target::Broadcast,
        Target::Group => Target::Broadcast,
        Target::Path => Target::Broadcast,
        Target::Route => Target::Broadcast,
    }
}

// The line that an end system's address falls under.
pub fn target_of(class: Class, s: Survey) -> Target
    ensures { result ≡ target_of class s }
{
    if s.addressed != 0 {
        return Target::Here;
    }
    if s.broadcast != 0 {
        return over_broadcast(class_target(class));
    }
    class_target(class)
}

// What a place says of this node, 0 where it says no: delivered here, or the set of the arrival port where that is subscribed.
fn here_by(p: Option<Place>) -> u32
    ensures { result ≡ here_by p }
{
    p.map_or(0, |place| place.here)
}

// Whether the target makes the datagram ours, by what its place says.
fn is_ours(t: Target, here: u32) -> bool
    ensures { result ≡ ours_by t here }
{
    match t {
        Target::Here | Target::Broadcast => true,
        Target::Group | Target::Path => here != 0,
        Target::Route => false,
    }
}

// Whether the datagram would be delivered: it is ours, or intermediate delivery is asked for.
fn is_wanted_here(ours: bool, intermediate: u32) -> bool
    ensures { result ≡ wanted_here ours intermediate }
{
    ours || intermediate != 0
}

// The local half.
pub fn local_of(t: Target, p: Option<Place>, c: Case) -> Local
    ensures { result ≡ local_of t p c }
{
    let ours = is_ours(t, here_by(p));
    if !is_wanted_here(ours, c.intermediate) {
        return Local::No;
    }
    if c.assigned == 0 {
        return Local::Unknown;
    }
    Local::Delivered
}
