// The lines of the onward half: the first that fits says that nothing is asked, a number, or the ports that a datagram is wanted on.
//
// A router has a line for each target; a host sends nothing on, and says 9 of what is not delivered here. What a router is to flood goes to every other port,
// whatever its target, unless the pairs say otherwise.
//
// The awkward case is the multicast line: subscribed on the arrival port with no other port set up is "not asked" and comes before the
// test of the group's set.
ghost use Rattle.std.specs.Prelude.{◌≡◌, ℕ};
ghost use Rattle.verdict.specs.declared.Flood.TheVariants.{Plain, New};
ghost use Rattle.verdict.specs.declared.Wish.{Wish};
ghost use Rattle.verdict.specs.Rule.{broadcast_line, alone_by, group_line, path_line, route_line, router_line, unheard_by, host_line, plain_line, flood_line, line_of};

use crate::{Case, Flood, Local, Obstacle, Place, Target, Way, Wish};

// A broadcast of ours goes to every other port that is set up; not asked if there is none.
fn broadcast_line(set: u32) -> Wish
    ensures { result ≡ broadcast_line set }
{
    if set == 0 {
        return Wish::NotAsked;
    }
    Wish::Wanted(set)
}

// Whether the arrival port is subscribed and no other port is set up.
fn is_alone(subscribed: u32, others: u32) -> bool
    ensures { result ≡ alone_by subscribed others }
{
    subscribed != 0 && others == 0
}

// A group's set without the arrival port; 11 where it is empty or there is no group.
fn group_line(p: Option<Place>, arrival: u32, others: u32) -> Wish
    ensures { result ≡ group_line p arrival others }
{
    let Some(place) = p else {
        return Wish::Refused(Obstacle::NoRoute);
    };
    if is_alone(place.here, others) {
        return Wish::NotAsked;
    }
    let set = crate::except(place.send, arrival);
    if set == 0 {
        return Wish::Refused(Obstacle::NoRoute);
    }
    Wish::Wanted(set)
}

// A path's set without the arrival port; where that is empty, not asked if the path is delivered here, else 11.
fn path_line(p: Option<Place>, arrival: u32) -> Wish
    ensures { result ≡ path_line p arrival }
{
    let Some(place) = p else {
        return Wish::Refused(Obstacle::NoRoute);
    };
    let set = crate::except(place.send, arrival);
    if set != 0 {
        return Wish::Wanted(set);
    }
    if place.here != 0 {
        return Wish::NotAsked;
    }
    Wish::Refused(Obstacle::NoRoute)
}

// The port of the route taken, which may be the arrival port; 11 where no route was found.
fn route_line(w: Option<Way>) -> Wish
    ensures { result ≡ route_line w }
{
    let Some(way) = w else {
        return Wish::Refused(Obstacle::NoRoute);
    };
    Wish::Wanted(way.port)
}

// What a router makes of a target.
fn router_line(t: Target, p: Option<Place>, w: Option<Way>, arrival: u32, ready: u32) -> Wish
    ensures { result ≡ router_line t p w arrival ready }
{
    let others = crate::except(ready, arrival);
    match t {
        Target::Here => Wish::NotAsked,
        Target::Broadcast => broadcast_line(others),
        Target::Group => group_line(p, arrival, others),
        Target::Path => path_line(p, arrival),
        Target::Route => route_line(w),
    }
}

// What a host says of what is not its own: 9, unless it is delivered or 26.
fn unheard(local: Local) -> Wish
    ensures { result ≡ unheard_by local }
{
    match local {
        Local::No => Wish::Refused(Obstacle::NotForUs),
        Local::Delivered => Wish::NotAsked,
        Local::Unknown => Wish::NotAsked,
    }
}

// What a host makes of a target: it sends nothing on.
fn host_line(t: Target, local: Local) -> Wish
    ensures { result ≡ host_line t local }
{
    let other = unheard(local);
    match t {
        Target::Here => Wish::NotAsked,
        Target::Broadcast => other,
        Target::Group => other,
        Target::Path => other,
        Target::Route => other,
    }
}

// The first line of the onward half that fits, no pair asked.
fn plain_line(
    t: Target,
    p: Option<Place>,
    w: Option<Way>,
    c: Case,
    ready: u32,
    local: Local,
) -> Wish
    ensures { result ≡ plain_line t p w c ready local }
{
    if c.router == 0 {
        return host_line(t, local);
    }
    router_line(t, p, w, c.arrival, ready)
}

// A datagram that is flooded goes to every other port that is set up; 11 where there is none.
fn every_other(others: u32) -> Wish
    ensures { (place : ℕ) (line : Wish) → result ≡ flood_line (New place) others line }
{
    if others == 0 {
        return Wish::Refused(Obstacle::NoRoute);
    }
    Wish::Wanted(others)
}

// What becomes of a datagram that a router floods, or would. One that is plain does not come here: the caller tells it apart by one test, since most are.
fn flood_line(f: Flood, others: u32) -> Wish
    ensures { (line : Wish) → (f ≡ Plain → ⊥) → result ≡ flood_line f others line }
{
    match f {
        Flood::Plain => Wish::NotAsked,
        Flood::Unsent => Wish::NotAsked,
        Flood::Full => Wish::Refused(Obstacle::PairsHeld),
        Flood::New(_) => every_other(others),
    }
}

// The first line of the onward half that fits.
pub fn line_of(
    t: Target,
    p: Option<Place>,
    w: Option<Way>,
    c: Case,
    ready: u32,
    local: Local,
) -> Wish
    ensures { result ≡ line_of t p w c ready local }
{
    let flood = c.flood;
    let Flood::Plain = flood else {
        return flood_line(flood, crate::except(ready, c.arrival));
    };
    plain_line(t, p, w, c, ready, local)
}
