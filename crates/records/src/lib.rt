// The records of the relay's settings: a port and whose it is, a group place, a path place; of what it keeps: a pair of source and timestamp; and whether
// a place holds an address or a pair.
//
// Each field is a whole word, and the flags are numbers: a board or a state that C lends may hold any words, and each of them must be some
// record. A flag says no by 0 and yes by anything else; settings write only 0 and 1. A set of ports has port p as 2^p. The record of
// a route stands with the search, the queue in a crate of its own.
#![tactic(auto)]

ghost use Rattle.std.specs.Prelude.{◌≡◌};
ghost use Rattle.records.specs.Held.{holds_group, holds_path, holds_pair};

use address::{Address, Mask, PathAddress};

// `ready` is 0 where the port is not set up.
#[repr(C)]
#[derive(Clone, Copy)]
pub struct Port {
    pub ready: u32,
    pub address: Address,
    pub mask: Mask,
    pub mtu: u32,
}

// A port and the mission that it was given to when it was written.
#[repr(C)]
#[derive(Clone, Copy)]
pub struct OwnedPort {
    pub port: Port,
    pub mission: u32,
}

// A multicast address, the set of ports to send to and the set of subscribed ports.
#[repr(C)]
#[derive(Clone, Copy)]
pub struct Group {
    pub filled: u32,
    pub address: Address,
    pub send: u32,
    pub subscribed: u32,
}

// A path address, the set of ports to send to and whether it is delivered here.
#[repr(C)]
#[derive(Clone, Copy)]
pub struct PathPlace {
    pub filled: u32,
    pub path: PathAddress,
    pub send: u32,
    pub here: u32,
}

// The source and the timestamp of a flooded datagram: the source as four octets, the format of the timestamp, and its octets, the P-field with the time's upper
// part in one word, and the time's lower part in another.
#[repr(C)]
#[derive(Clone, Copy, PartialEq, Eq)]
pub struct Pair {
    pub format: u32,
    pub source: Address,
    pub upper: u32,
    pub lower: u32,
}

// A pair that is kept, and the second in which it came. A format of 0 is a free place.
#[repr(C)]
#[derive(Clone, Copy)]
pub struct PairPlace {
    pub pair: Pair,
    pub second: u32,
}

// Whether a place is filled, and by this group address.
pub fn holds_group(g: Group, a: Address) -> bool
    ensures { result ≡ holds_group g a }
{
    g.filled != 0 && g.address == a
}

// Whether a place is filled, and by this path address.
pub fn holds_path(x: PathPlace, p: PathAddress) -> bool
    ensures { result ≡ holds_path x p }
{
    x.filled != 0 && x.path == p
}

// Whether a place holds this pair: format, source and all octets of the timestamp are the same.
pub fn holds_pair(x: PairPlace, q: Pair) -> bool
    ensures { result ≡ holds_pair x q }
{
    x.pair == q
}
