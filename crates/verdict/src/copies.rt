// The copies of one datagram: of the ports that it is wanted on, those that are granted one, and those that take it.
//
// Three rules strike ports out, in the order 10, 13, 14: no hops left, another domain with a path of one octet, a port that the datagram does not
// fit. Where no hops are left nothing is asked of the ports. What is left is granted. A port whose queue is full drops its copy. All
// this is arithmetic on sets of ports, numbers in which port p is 2 to the power of p. The awkward case is a set that becomes empty: the
// rule that struck out its last port gives the number, and full queues alone give 15, with every copy granted and dropped.
ghost use Rattle.std.specs.Prelude.{◌≡◌};
ghost use Rattle.verdict.specs.Rule.{hops_left, same_domain, large_enough, after_hops, after_size, copies_of, ruling_of};

use crate::{Local, Obstacle, Onward, Ruling, Survey, Wish};

// Hops left, else 10.
fn hops_left(set: u32, spent: u32) -> Wish
    ensures { result ≡ hops_left set spent }
{
    if spent != 0 {
        return Wish::Refused(Obstacle::HopsUsedUp);
    }
    Wish::Wanted(set)
}

// With a path of one octet, the ports of the arrival port's domain alone; none left is 13.
fn same_domain(set: u32, bound: u32, domain: u32) -> Wish
    ensures { result ≡ same_domain set bound domain }
{
    if bound == 0 {
        return Wish::Wanted(set);
    }
    let left = set & domain;
    if left == 0 {
        return Wish::Refused(Obstacle::LeavesDomain);
    }
    Wish::Wanted(left)
}

// The ports that the datagram fits; none left is 14.
pub fn large_enough(set: u32, fitting: u32) -> Wish
    ensures { result ≡ large_enough set fitting }
{
    let left = set & fitting;
    if left == 0 {
        return Wish::Refused(Obstacle::TooBig);
    }
    Wish::Wanted(left)
}

// Each strikes ports out of those that are wanted, and leaves what is not wanted as it is.
pub fn after_hops(w: Wish, spent: u32) -> Wish
    ensures { result ≡ after_hops w spent }
{
    match w {
        Wish::NotAsked => Wish::NotAsked,
        Wish::Refused(obstacle) => Wish::Refused(obstacle),
        Wish::Wanted(set) => hops_left(set, spent),
    }
}

fn after_size(w: Wish, fitting: u32) -> Wish
    ensures { result ≡ after_size w fitting }
{
    match w {
        Wish::NotAsked => Wish::NotAsked,
        Wish::Refused(obstacle) => Wish::Refused(obstacle),
        Wish::Wanted(set) => large_enough(set, fitting),
    }
}

// The ports that are granted a copy, of the wanted ones, which hops are left for: 13, then 14.
pub fn granted_among(set: u32, bound: u32, s: Survey) -> Wish
    ensures { result ≡ after_size (same_domain set bound s.domain) s.fitting }
{
    let near = same_domain(set, bound, s.domain);
    after_size(near, s.fitting)
}

// The copies granted: each port whose queue is not full takes one, the others drop theirs; all dropped is 15.
fn copies_of(local: Local, granted: u32, full: u32) -> Ruling
    ensures { result ≡ copies_of local granted full }
{
    let dropped = granted & full;
    let took = crate::except(granted, full);
    if took == 0 {
        return Ruling {
            local,
            onward: Onward::Refused(Obstacle::QueuesFull),
            granted,
            took,
            dropped,
        };
    }
    Ruling {
        local,
        onward: Onward::SentOn,
        granted,
        took,
        dropped,
    }
}

// The ruling, by the local half and what the onward half granted.
pub fn ruling_of(local: Local, granted: Wish, full: u32) -> Ruling
    ensures { result ≡ ruling_of local granted full }
{
    match granted {
        Wish::NotAsked => Ruling {
            local,
            onward: Onward::NotAsked,
            granted: 0,
            took: 0,
            dropped: 0,
        },
        Wish::Refused(obstacle) => Ruling {
            local,
            onward: Onward::Refused(obstacle),
            granted: 0,
            took: 0,
            dropped: 0,
        },
        Wish::Wanted(set) => copies_of(local, set, full),
    }
}
