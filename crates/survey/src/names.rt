// The names of the ports, gathered once for many datagrams.
//
// Which ports have an address, or have it as a broadcast, is asked of every datagram for a node, and the board does not change between those of a
// batch. So each port's address and its two broadcasts are gathered beforehand, and marked by their last six bits: most datagrams are for other
// systems, and one look at the marks says so. The others are compared with three lists of numbers. A single call gathers nothing: it says so, and its
// datagram is compared with the ports themselves.
//
// The awkward case is a port whose class has no network broadcast: the subnet's stands in its place, which adds no name.
ghost use Rattle.std.specs.Prelude.{◌≡◌, ◌||◌, eqb, length};
ghost use Rattle.state.specs.Seen.{ports_seen};
ghost use Rattle.state.specs.Layout.{board_words, decode_board};
ghost use Rattle.survey.specs.Survey.{named_of};
ghost use Rattle.survey.specs.Names.{
  no_names,
  broadcast_or,
  mark_of,
  marked_by,
  NamesOf,
  NamesFor,
  compared_of,
};

use address::Address;
use sets::indexes::PORTS;
use state::BoardWords;
use verdict::Survey;

// 1 where the ports were looked at; the set of those that are set up; the marks of all names; and of each port the address, the broadcast of its
// subnet, and that of its class network.
#[derive(Clone, Copy)]
pub struct Names {
    pub looked: u32,
    pub ready: u32,
    pub marks: u64,
    pub own: [u32; PORTS],
    pub subnet: [u32; PORTS],
    pub class: [u32; PORTS],
}

// Names of ports that were not looked at.
pub fn no_names() -> Names
    ensures { result ≡ no_names }
{
    Names {
        looked: 0,
        ready: 0,
        marks: 0,
        own: [0; PORTS],
        subnet: [0; PORTS],
        class: [0; PORTS],
    }
}

// The broadcast of a class network, or where there is none another number.
fn broadcast_or(b: Option<Address>, other: u32) -> u32
    ensures { result ≡ broadcast_or b other }
{
    b.map_or(other, |x| x.0)
}

// What marks a name: its last six bits.
fn mark_of(name: u32) -> u64
    ensures { result ≡ mark_of name }
{
    1 << (name % 64)
}

// The marks with those of three more names.
fn marked_by(marks: u64, own: u32, subnet: u32, class: u32) -> u64
    ensures { result ≡ marked_by marks own subnet class }
{
    marks | mark_of(own) | mark_of(subnet) | mark_of(class)
}

// The names of the ports that the mission of this number sees.
pub fn names_of(board: &BoardWords, number: u32) -> Names
    ensures { NamesOf (ports_seen number (decode_board board.now)) result }
{
    let mut ready = 0;
    let mut marks = 0;
    let mut own = [0; PORTS];
    let mut subnet = [0; PORTS];
    let mut class = [0; PORTS];
    for i in 0..PORTS {
        let p = state_board::seen_port(board, number, i);
        let address = p.address;
        let near = networks::subnet_broadcast(address, p.mask).0;
        let far = broadcast_or(networks::class_broadcast(address), near);
        ready = crate::with_port(ready, p.ready != 0, sets::only_port(i as u32));
        marks = marked_by(marks, address.0, near, far);
        own[i] = address.0;
        subnet[i] = near;
        class[i] = far;
    }
    Names {
        looked: 1,
        ready,
        marks,
        own,
        subnet,
        class,
    }
}

// Whether one of two names is this number.
fn is_either(x: u32, y: u32, a: u32) -> bool
    ensures { result ≡ (eqb x a || eqb y a) }
{
    if x == a {
        return true;
    }
    y == a
}

// The ports that are set up and have the address, or have it as a broadcast, by their names.
fn compared(k: Names, a: Address) -> Survey
    ensures { result ≡ compared_of k a }
{
    let mut addressed = 0;
    let mut broadcast = 0;
    for i in 0..PORTS {
        let port = sets::only_port(i as u32);
        addressed = crate::with_port(addressed, k.own[i] == a.0, port);
        broadcast = crate::with_port(broadcast, is_either(k.subnet[i], k.class[i], a.0), port);
    }
    Survey {
        ready: k.ready,
        addressed: k.ready & addressed,
        broadcast: k.ready & broadcast,
        domain: 0,
        fitting: 0,
        full: 0,
    }
}

// What `named` says, by the names where the ports were looked at.
pub fn named_by(board: &BoardWords, number: u32, k: Names, a: Address) -> Survey
    requires { NamesFor (ports_seen number (decode_board board.now)) k }
    ensures { result ≡ named_of (ports_seen number (decode_board board.now)) a }
{
    if k.looked != 1 {
        return crate::named(board, number, a);
    }
    if (k.marks >> (a.0 % 64)) % 2 == 1 {
        return compared(k, a);
    }
    Survey {
        ready: k.ready,
        addressed: 0,
        broadcast: 0,
        domain: 0,
        fitting: 0,
        full: 0,
    }
}
