// The rules for one datagram that has been read: what becomes of it here, and which ports it is wanted on.
//
// The rule is pure. It is handed what others looked up (which ports are set up, which have the destination's address, what the
// places for groups and paths hold, which route was found, which queues are full) as small numbers. The kinds that it is told in and
// answers in stand here; module `local_half` says what a destination is to this node, module `onward_half` which line of the onward half
// fits, module `copies` which of the ports wanted are granted, take or drop a copy. Nothing is written; the relay applies the ruling. A
// set of ports is a number in which port p is 2 to the power of p.
//
// The awkward case is a number of page 01 that both halves use, 1: delivered in one, sent on in the other. So each half is a kind of its
// own, and has its number (0, 1, 26; 0, 1, 9 to 11, 13 to 15, 30) by `u32::from`.
#![tactic(auto)]

pub mod copies;
pub mod local_half;
pub mod onward_half;

ghost use Rattle.std.specs.Prelude.{◌≡◌};
ghost use Rattle.verdict.specs.Rule.{code_of, except_by};

// Which line of the onward half a destination falls under, apart from what a host makes of it.
#[derive(Clone, Copy)]
pub enum Target {
    Here,
    Broadcast,
    Group,
    Path,
    Route,
}

// What the ports say of a datagram: the ports set up, those with the destination's address, those it is a broadcast of, those in the
// domain of the arrival port, those that the datagram fits as they would get it, those with a full queue.
#[derive(Clone, Copy)]
pub struct Survey {
    pub ready: u32,
    pub addressed: u32,
    pub broadcast: u32,
    pub domain: u32,
    pub fitting: u32,
    pub full: u32,
}

// What the place for a group or a path says: the ports to send to, and whether it is delivered here (a path) or subscribed on the
// arrival port (a group), 0 where not. There may be no place.
#[derive(Clone, Copy)]
pub struct Place {
    pub send: u32,
    pub here: u32,
}

// The way that the route search found, if it found one: the port of the route taken, as a set, and its capabilities, the code of what a header needs on
// that leg. A route that is taken is up.
#[derive(Clone, Copy)]
pub struct Way {
    pub port: u32,
    pub code: u32,
}

// What the pairs of a mission say of a datagram that is to be flooded by a router. Plain: it is not, and the lines of the onward half decide. Unsent: its pair
// is held, or it is for this node alone. Full: every place holds another pair. New: its pair is kept, in this place.
#[derive(Clone, Copy)]
pub enum Flood {
    Plain,
    Unsent,
    Full,
    New(u32),
}

// What is asked of the rule besides: the arrival port as a set, whether the node is a router, whether intermediate delivery is asked
// for, whether the TP-ID is assigned, whether it goes by a path of one octet, which is bound to its domain, whether the hops are used up, and what the
// pairs say.
#[derive(Clone, Copy)]
pub struct Case {
    pub arrival: u32,
    pub router: u32,
    pub intermediate: u32,
    pub assigned: u32,
    pub bound: u32,
    pub spent: u32,
    pub flood: Flood,
}

// The local half. Unknown: it would be delivered, and its TP-ID is not assigned.
#[derive(Clone, Copy)]
pub enum Local {
    No,
    Delivered,
    Unknown,
}

// What keeps a datagram from being sent on.
#[derive(Clone, Copy)]
pub enum Obstacle {
    NotForUs,
    HopsUsedUp,
    NoRoute,
    LeavesDomain,
    TooBig,
    QueuesFull,
    PairsHeld,
}

// What a line of the onward half makes of a datagram, before any queue is looked at: it is wanted on the ports of a set.
#[derive(Clone, Copy)]
pub enum Wish {
    NotAsked,
    Refused(Obstacle),
    Wanted(u32),
}

// The onward half. SentOn: some port took an entry.
#[derive(Clone, Copy)]
pub enum Onward {
    NotAsked,
    SentOn,
    Refused(Obstacle),
}

// The ruling: both halves, and the ports that are granted a copy, that took it and that dropped it.
#[derive(Clone, Copy)]
pub struct Ruling {
    pub local: Local,
    pub onward: Onward,
    pub granted: u32,
    pub took: u32,
    pub dropped: u32,
}

// Page 01's number of a local half.
impl From<Local> for u32 {
    ghost use Rattle.std.specs.Prelude.{◌≡◌};
    ghost use Rattle.verdict.specs.Numbers.{local_number};

    ghost from_gives = { λ local n. n ≡ local_number local };

    fn from(local: Local) -> u32 {
        match local {
            Local::No => 0,
            Local::Delivered => 1,
            Local::Unknown => 26,
        }
    }
}

// Page 01's number of an obstacle.
impl From<Obstacle> for u32 {
    ghost use Rattle.std.specs.Prelude.{◌≡◌};
    ghost use Rattle.verdict.specs.Numbers.{obstacle_number};

    ghost from_gives = { λ obstacle n. n ≡ obstacle_number obstacle };

    fn from(obstacle: Obstacle) -> u32 {
        match obstacle {
            Obstacle::NotForUs => 9,
            Obstacle::HopsUsedUp => 10,
            Obstacle::NoRoute => 11,
            Obstacle::LeavesDomain => 13,
            Obstacle::TooBig => 14,
            Obstacle::QueuesFull => 15,
            Obstacle::PairsHeld => 30,
        }
    }
}

// Page 01's number of an onward half.
impl From<Onward> for u32 {
    ghost use Rattle.std.specs.Prelude.{◌≡◌};
    ghost use Rattle.verdict.specs.Numbers.{onward_number};

    ghost from_gives = { λ onward n. n ≡ onward_number onward };

    fn from(onward: Onward) -> u32 {
        match onward {
            Onward::NotAsked => 0,
            Onward::SentOn => 1,
            Onward::Refused(obstacle) => obstacle.into(),
        }
    }
}

// What the route taken asks of a header, 0 without a route.
pub fn code_of(w: Option<Way>) -> u32
    ensures { result ≡ code_of w }
{
    w.map_or(0, |way| way.code)
}

// A set of ports without those of another.
pub fn except(set: u32, others: u32) -> u32
    ensures { result ≡ except_by set others }
{
    set - (set & others)
}
