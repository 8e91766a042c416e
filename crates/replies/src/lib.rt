// The reply to an echo request, if one is made.
//
// A relay that is asked for an echo answers with what it saw of the request: its hop count, its timestamp, and the MTU of the port that it came in by. The ground
// sends such requests with growing hop counts and intermediate delivery, and finds the leg on which they fall silent. Module `request` says which datagrams are
// answered, this one what the reply is made of, module `sending` whether and how it goes, once the route is known. Nothing is written here but the
// reply itself.
//
// The awkward case is a request with one-octet addresses: the reply keeps them, and the address of the arrival port, where it is the source, is its last octet. It is
// widened only where the route leads into another domain.
#![tactic(auto)]

pub mod request;
pub mod sending;

ghost use Rattle.std.specs.Prelude.{◌≡◌, ◌+◌, ◌%◌, ◌≤◌, length};
ghost use Rattle.checks.specs.Order.{pick};
ghost use Rattle.state.specs.Seen.{seated};
ghost use Rattle.state.specs.Layout.{board_words, decode_board, mission_words, decode};
ghost use Rattle.header.specs.Onward.{found_of};
ghost use Rattle.judge.specs.Asked.{octets_asked};
ghost use Rattle.echo.specs.Message.{request_size, reply_size};
ghost use Rattle.replies.specs.Reply.{
  reply_addresses,
  reply_qos,
  reply_fields,
  hops_in,
  stamp_number,
  seen_for,
  least,
  echoed_count,
  no_answer,
  asked_by,
  is_asked,
  answer_to,
  Within,
};
ghost use Rattle.replies.specs.Replied.{heard_answer, answering_of};

use crate::request::Request;
use address::Address;
use checks::Check;
use echo::{Kind, Message, Seen};
use header::{Addresses, Fields, Qos, Timestamp};
use judge::Asked;
use judge::ruling::Arrival;
use state::{BoardWords, MissionWords};
use verdict::Survey;

// The octets of the longest timestamp.
const LONGEST_STAMP: usize = 8;

// The most data that fit in a reply's message.
const MOST_ECHOED: usize = header::limits::MOST_DATA - echo::REPLY_SIZE;

// What is known before the search: the refusal that ends the call, 0 for none; whether a reply is made; its header's fields and its message; where in the request
// the data stand that it sends back, and how many; its precedence and its destination; the arrival port's address; the ports set up, and the mission's number.
#[derive(Clone, Copy)]
pub struct Answering {
    pub refusal: u32,
    pub made: u32,
    pub fields: Fields,
    pub message: Message,
    pub from: usize,
    pub count: usize,
    pub precedence: u16,
    pub destination: Address,
    pub arrival: Address,
    pub ready: u32,
    pub number: u32,
}

// An octet of an address where it is a port's own, else the last octet of the arrival port's.
fn own_octet(arrival: Address, own: bool, z: u8) -> u8
    ensures { result ≡ pick own z (arrival.0 % 256) }
{
    if own {
        return z;
    }
    (arrival.0 % 256) as u8
}

fn own_address(arrival: Address, own: bool, a: Address) -> Address
    ensures { result ≡ pick own a arrival }
{
    if own {
        return a;
    }
    arrival
}

// Back to the source, in the request's kind of address.
fn reply_addresses(arrival: Address, own: bool, a: Addresses) -> Addresses
    ensures { result ≡ reply_addresses arrival own a }
{
    match a {
        Addresses::BasicPath(z) => Addresses::BasicPath(z),
        Addresses::ExtendedPath(p) => Addresses::ExtendedPath(p),
        Addresses::BasicEndSystem(d, s) => {
            Addresses::BasicEndSystem(s, own_octet(arrival, own, d))
        }
        Addresses::ExtendedEndSystem(d, s) => {
            Addresses::ExtendedEndSystem(s, own_address(arrival, own, d))
        }
        Addresses::Ipv6(d, s) => Addresses::Ipv6(d, s),
    }
}

fn reply_qos(q: Option<Qos>) -> Option<Qos>
    ensures { result ≡ reply_qos q }
{
    match q {
        None => None,
        Some(q) => Some(Qos {
            precedence: q.precedence,
            routing: 0,
            program: 0,
        }),
    }
}

// The header of the reply, before any rewrite.
fn reply_fields(arrival: Address, own: bool, f: Fields) -> Fields
    ensures { result ≡ reply_fields arrival own f }
{
    Fields {
        tpid: crate::request::SCMP,
        addresses: reply_addresses(arrival, own, f.addresses),
        qos: reply_qos(f.qos),
        hops: Some(next_leg::FIRST_HOPS),
        stamp: None,
        expanded: None,
        checksum: 0,
        intermediate: 0,
    }
}

fn hops_in(hops: Option<u8>) -> u8
    ensures { result ≡ hops_in hops }
{
    hops.unwrap_or(0)
}

// All octets of a timestamp as one number.
fn stamp_number(t: Option<Timestamp>) -> u64
    ensures { result ≡ stamp_number t }
{
    let mut field = [0u8; LONGEST_STAMP];
    let size = writer::elements::put_stamp(&mut field, 0, t);
    octets::number_at(&field, 0, size)
}

// What the reply says of the request.
fn seen_for(f: Fields, mtu: u32) -> Seen
    ensures { result ≡ seen_for f mtu }
{
    Seen {
        hops: hops_in(f.hops),
        format: header::flags::stamp_format(f.stamp),
        stamp: stamp_number(f.stamp),
        mtu,
        rate: 0,
    }
}

fn least(a: usize, b: usize) -> usize
    ensures { result ≡ least a b }
{
    if a < b {
        return a;
    }
    b
}

// How many octets of data go back, of so many that came, by a port of this MTU and behind a header of this size.
fn echoed_count(mtu: usize, size: usize, count: usize) -> usize
    requires { size + reply_size ≤ mtu }
    ensures { result ≡ echoed_count mtu size count }
{
    least(least(count, MOST_ECHOED), mtu - size - echo::REPLY_SIZE)
}

// No reply: by the number that refuses the call, or by 0 where none is due.
pub fn no_answer(refusal: u32) -> Answering
    ensures { result ≡ no_answer refusal }
{
    let header = judge::no_header();
    let fields = header.fields;
    Answering {
        refusal,
        made: 0,
        fields,
        message: Message {
            identifier: 0,
            sequence: 0,
            kind: Kind::Request,
        },
        from: 0,
        count: 0,
        precedence: 0,
        destination: Address(0),
        arrival: Address(0),
        ready: 0,
        number: 0,
    }
}

// The reply to a request, where the arrival port's MTU has room for its header and its fixed part.
fn make_reply(a: Asked, s: Survey, mtu: u32, request: Request) -> Answering
    requires { a.header.size + request_size ≤ a.header.length }
    ensures { result ≡ asked_by (Some request) a s mtu }
{
    let header = a.header;
    let asked = header.fields;
    let addresses = asked.addresses;
    let arrival = a.arrival;
    let fields = reply_fields(arrival, crate::request::is_owned(s), asked);
    let size = builder::measure::header_size(fields);
    if (mtu as usize) < size + echo::REPLY_SIZE {
        return no_answer(0);
    }
    let message = Message {
        identifier: request.identifier,
        sequence: request.sequence,
        kind: Kind::Reply(seen_for(asked, mtu)),
    };
    Answering {
        refusal: 0,
        made: 1,
        fields,
        message,
        from: header.size + echo::REQUEST_SIZE,
        count: echoed_count(
            mtu as usize,
            size,
            header.length - header.size - echo::REQUEST_SIZE,
        ),
        precedence: a.precedence,
        destination: Address(meaning::flood::source_in(meaning::origin_of(arrival, addresses))),
        arrival,
        ready: a.ready,
        number: a.number,
    }
}

// Whether the header and the destination of a datagram ask for a reply, and requests are not dropped.
fn is_asked(dropping: u32, a: Asked, s: Survey) -> bool
    ensures { result ≡ is_asked dropping a s }
{
    if a.refusal != 0 {
        return false;
    }
    if dropping != 0 {
        return false;
    }
    let target = a.target;
    let place = a.place;
    let case = a.case;
    if !crate::request::is_delivered(verdict::local_half::local_of(target, place, case)) {
        return false;
    }
    let header = a.header;
    let fields = header.fields;
    if !crate::request::asks_in_header(fields) {
        return false;
    }
    let destination = a.destination;
    !crate::request::is_to_many(s, Address(judge::address_in(destination)))
}

// The reply to a datagram whose header was judged.
fn answer_to(dropping: u32, a: Asked, s: Survey, mtu: u32, octets: &[u8]) -> Answering
    requires { Within a octets.now }
    ensures { result ≡ answer_to dropping a s mtu octets.now }
{
    if !is_asked(dropping, a, s) {
        return no_answer(0);
    }
    let header = a.header;
    match crate::request::asking_of(header, octets) {
        Some(request) => make_reply(a, s, mtu, request),
        None => no_answer(0),
    }
}

// The reply to octets that came in by a port of this MTU.
fn answer_octets(
    board: &BoardWords,
    mission: &MissionWords,
    at: Arrival,
    mtu: u32,
    octets: &[u8],
) -> Answering
    ensures { result
        ≡ heard_answer (seated (decode_board board.now) (decode mission.now)) (decode_board board.now).drop
        (octets_asked (seated (decode_board board.now) (decode mission.now)) (decode mission.now).number at
        (found_of octets.now)) mtu octets.now }
{
    let a = judge::ask_octets(board, mission, at, octets, survey::names::no_names());
    let destination = a.destination;
    let s = survey::named(
        board,
        state_mission::number_of(mission),
        Address(judge::address_in(destination)),
    );
    answer_to(state_board::drop_of(board), a, s, mtu, octets)
}

// What is known before the search of the reply to octets that came in by a port, with so much room for it.
pub fn answer(
    board: &BoardWords,
    mission: &MissionWords,
    port: u32,
    octets: &[u8],
    room: usize,
) -> Answering
    ensures { result
        ≡ answering_of (seated (decode_board board.now) (decode mission.now)) (decode mission.now).number
        (decode_board board.now).drop port octets.now room }
{
    let number = state_mission::number_of(mission);
    let Check::Passed = state_board::check_port(board, number, port) else {
        return no_answer(16);
    };
    let p = state_board::seen_port(board, number, port as usize);
    let address = p.address;
    if room < p.mtu as usize {
        return no_answer(17);
    }
    let at = Arrival {
        set: sets::only_port(port),
        address,
    };
    answer_octets(board, mission, at, p.mtu, octets)
}
