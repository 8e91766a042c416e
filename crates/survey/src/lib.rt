// What the eight ports say of a datagram.
//
// The verdict asks sets of ports: which are set up, which have the destination's address, of which it is a broadcast, which lie in the
// arrival port's domain, which the datagram fits, which have a full queue. The first three are asked before the route is
// searched; the last three after it, and only of the ports that the datagram is wanted on. So there are two walks, and each leaves the
// other's sets empty. Only ports that the mission sees and that are set up are in any of the sets: whatever else a board says of a port
// that is not set up, nothing is granted to it. A path is no address: no port is asked for it.
//
// The awkward cases are a port in net 10, of which two addresses are broadcasts: that of its own subnet, 10.x.y.255, and 10.255.255.255; and a datagram
// that is not equally long on all ports, since its header is rewritten for some: two lengths are asked with, for ports of the domain and for others.
#![tactic(auto)]

pub mod names;

ghost use Rattle.std.specs.Prelude.{◌≡◌, true, ◌^◌, ◌≤◌, ◌<◌, length};
ghost use Rattle.sets.specs.Limits.{port_count};
ghost use Rattle.sets.specs.Sets.{in_set};
ghost use Rattle.state.specs.Relay.{port_in, queue_in};
ghost use Rattle.state.specs.Seen.{ports_seen, seated};
ghost use Rattle.state.specs.Layout.{board_words, decode_board, mission_words, decode};
ghost use Rattle.survey.specs.Survey.{
  broadcast_is,
  own_broadcast,
  no_survey,
  Roomy,
  size_at,
  fits_port,
  joined_by,
  with_named,
  with_wanted,
  named_of,
  wanted_of,
};

use address::Address;
use records::Port;
use sets::indexes::PORTS;
use state::{BoardWords, MissionWords};
use verdict::Survey;

// What is asked of the wanted ports: the arrival port's domain, and the octets of the datagram as a port of that domain gets it, and as another does.
#[derive(Clone, Copy)]
pub struct Sought {
    pub domain: u32,
    pub near: u32,
    pub far: u32,
}

fn broadcast_is(b: Option<Address>, a: Address) -> bool
    ensures { result ≡ broadcast_is b a }
{
    b.is_some_and(|x| x.0 == a.0)
}

// Whether the address is a broadcast of a port's subnet or class network. That of a class network ends with 255, so that for most addresses
// no port's class is looked at.
fn own_broadcast(p: Port, a: Address) -> bool
    ensures { result ≡ own_broadcast p a }
{
    networks::subnet_broadcast(p.address, p.mask).0 == a.0
        || a.0 % 256 == 255 && broadcast_is(networks::class_broadcast(p.address), a)
}

// A set with one more port, where a test says so.
fn with_port(set: u32, test: bool, port: u32) -> u32
    requires { (set < 128) × (port ≤ 128) }
    ensures { result ≡ joined_by set test port }
{
    if test {
        return set + port;
    }
    set
}

// No port yet.
fn none() -> Survey
    ensures { result ≡ no_survey }
{
    Survey {
        ready: 0,
        addressed: 0,
        broadcast: 0,
        domain: 0,
        fitting: 0,
        full: 0,
    }
}

// The survey with one more port, which is the set `port`, asked for an address.
fn see_named(s: Survey, port: u32, p: Port, a: Address) -> Survey
    requires { Roomy s × (port ≤ 128) }
    ensures { result ≡ with_named s port p a }
{
    if p.ready == 0 {
        return s;
    }
    let own = p.address;
    Survey {
        ready: with_port(s.ready, true, port),
        addressed: with_port(s.addressed, own.0 == a.0, port),
        broadcast: with_port(s.broadcast, own_broadcast(p, a), port),
        domain: s.domain,
        fitting: s.fitting,
        full: s.full,
    }
}

// Before the search: the ports that are set up, those with the address, and those that have it as a broadcast.
pub fn named(board: &BoardWords, number: u32, a: Address) -> Survey
    ensures { result ≡ named_of (ports_seen number (decode_board board.now)) a }
{
    let mut s = none();
    for i in 0..PORTS {
        let p = state_board::seen_port(board, number, i);
        s = see_named(s, sets::only_port(i as u32), p, a);
    }
    s
}

// The octets of the datagram as a port gets it.
fn size_at(near: bool, q: Sought) -> u32
    ensures { result ≡ size_at near q }
{
    if near {
        return q.near;
    }
    q.far
}

// Whether a datagram of so many octets goes by a port: its MTU holds them, and so does the length field.
fn fits_port(mtu: u32, size: u32) -> bool
    ensures { result ≡ fits_port mtu size }
{
    if mtu < size {
        return false;
    }
    size < header::limits::LENGTH_LIMIT as u32
}

// The survey with one more wanted port, which has so many entries waiting, asked for domain, size and fullness.
fn see_wanted(s: Survey, port: u32, p: Port, waiting: u32, q: Sought) -> Survey
    requires { Roomy s × (port ≤ 128) }
    ensures { result ≡ with_wanted s port true p waiting q }
{
    if p.ready == 0 {
        return s;
    }
    let own = p.address;
    let near = networks::domain_of(own) == q.domain;
    Survey {
        ready: s.ready,
        addressed: s.addressed,
        broadcast: s.broadcast,
        domain: with_port(s.domain, near, port),
        fitting: with_port(s.fitting, fits_port(p.mtu, size_at(near, q)), port),
        full: with_port(s.full, !(waiting < queue::ENTRIES), port),
    }
}

// The survey with port i, where it is in the set: the words of other ports are not looked at.
fn see_if(
    board: &BoardWords,
    mission: &MissionWords,
    s: Survey,
    i: usize,
    set: u32,
    q: Sought,
) -> Survey
    requires { (i < port_count) × Roomy s }
    ensures { result
        ≡ with_wanted s (2 ^ i) (in_set i set) (port_in (seated (decode_board board.now) (decode mission.now)) i)
        (queue_in (seated (decode_board board.now) (decode mission.now)) i).count q }
{
    if (set >> i as u32) % 2 != 1 {
        return s;
    }
    let p = state_board::seen_port(board, state_mission::number_of(mission), i);
    see_wanted(
        s,
        sets::only_port(i as u32),
        p,
        state_queues::count_of(mission, i),
        q,
    )
}

// After the search: of the ports of a set, those in the domain, those that the datagram fits, and those with a full queue.
pub fn wanted(board: &BoardWords, mission: &MissionWords, set: u32, q: Sought) -> Survey
    ensures { result ≡ wanted_of (seated (decode_board board.now) (decode mission.now)) set q }
{
    let mut s = none();
    for i in 0..PORTS {
        s = see_if(board, mission, s, i, set, q);
    }
    s
}
