// Whether and how a reply goes, once its route is known; and its octets.
//
// A reply takes the route line whatever its destination, on a host too. It is rewritten like any copy: its addresses are widened where the route's port lies in another
// domain than the port that the request came in by, and a checksum is added where the route asks for it. Its hop count stays, since it begins here. The
// size is tested after that, against the port's MTU, the length field and the room lent.
//
// The awkward case is the room: it is at least the arrival port's MTU, within which the reply was made, but the rewritten one may be longer. A size over the room is
// asked for as one that no port's MTU holds, so that one test decides.
ghost use Rattle.std.specs.Prelude.{◌≡◌, true, false, not, ◌*◌, ◌<◌, ◌≢◌, length, eqb};
ghost use Rattle.checks.specs.Order.{pick};
ghost use Rattle.header.specs.Limits.{length_limit};
ghost use Rattle.state.specs.Seen.{seated};
ghost use Rattle.state.specs.Layout.{board_words, decode_board, mission_words, decode};
ghost use Rattle.replies.specs.Replied.{
  wire_fields,
  wire_length,
  within_room,
  sought_for,
  no_reply,
  replied_among,
  replied_via,
  replied_to,
  replied_output,
  Made,
  Goes,
};

use crate::Answering;
use header::Fields;
use header::limits::{LENGTH_LIMIT, LONGEST_HEADER};
use state::{BoardWords, MissionWords};
use survey::Sought;
use verdict::{Local, Obstacle, Ruling, Survey, Way, Wish};

// What becomes of a reply: the refusal that ended the call, or 0 and the ruling, which asks nothing where none is made; the precedence it waits with; what its route asks
// for; the port that took it where that lies in another domain; and the octets of the datagram that goes.
#[derive(Clone, Copy)]
pub struct Replied {
    pub refusal: u32,
    pub ruling: Ruling,
    pub precedence: u16,
    pub code: u32,
    pub far: u32,
    pub octets: usize,
}

// The fields of the header on the wire.
fn wire_fields(far: bool, a: Answering, code: u32) -> Fields
    ensures { result ≡ wire_fields far a.arrival.0 code a.fields }
{
    let f = a.fields;
    let arrival = a.arrival;
    let addresses = f.addresses;
    let qos = f.qos;
    let hops = f.hops;
    let stamp = f.stamp;
    let expanded = f.expanded;
    Fields {
        tpid: f.tpid,
        addresses: next_leg::addresses_next(far, arrival, addresses),
        qos,
        hops,
        stamp,
        expanded,
        checksum: next_leg::checksum_next(code, f.checksum),
        intermediate: f.intermediate,
    }
}

// The octets of the datagram on the wire.
fn wire_length(far: bool, a: Answering, code: u32) -> usize
    requires { Made a }
    ensures { (result ≡ wire_length far a code) × (result < 2 * length_limit) }
{
    builder::measure::header_size(wire_fields(far, a, code)) + echo::REPLY_SIZE + a.count
}

// A size as the ports are asked for it: one over the room lent fits none.
fn within_room(room: usize, size: usize) -> u32
    requires { size < 2 * length_limit }
    ensures { result ≡ within_room room size }
{
    if room < size {
        return LENGTH_LIMIT as u32;
    }
    size as u32
}

fn sought_for(a: Answering, code: u32, room: usize) -> Sought
    requires { Made a }
    ensures { result ≡ sought_for a code room }
{
    let arrival = a.arrival;
    Sought {
        domain: networks::domain_of(arrival),
        near: within_room(room, wire_length(false, a, code)),
        far: within_room(room, wire_length(true, a, code)),
    }
}

// No reply goes: by the number that refuses the call, or by none.
fn no_reply(refusal: u32) -> Replied
    ensures { result ≡ no_reply refusal }
{
    Replied {
        refusal,
        ruling: verdict::copies::ruling_of(Local::No, Wish::NotAsked, 0),
        precedence: 0,
        code: 0,
        far: 0,
        octets: 0,
    }
}

// The octets of the datagram that goes, 0 where none does.
fn octets_by(took: u32, far: u32, a: Answering, code: u32) -> usize
    requires { Made a }
    ensures { result ≡ pick (eqb took 0) 0 (wire_length (not (eqb far 0)) a code) }
{
    if took == 0 {
        return 0;
    }
    wire_length(far != 0, a, code)
}

// By the port of the route, and by what it says of the reply.
fn reply_among(a: Answering, set: u32, code: u32, s: Survey) -> Replied
    requires { Made a }
    ensures { result ≡ replied_among a set code s }
{
    let ruling = verdict::copies::ruling_of(
        Local::No,
        verdict::copies::large_enough(set, s.fitting),
        s.full,
    );
    let far = verdict::except(ruling.took, s.domain);
    Replied {
        refusal: 0,
        ruling,
        precedence: a.precedence,
        code,
        far,
        octets: octets_by(ruling.took, far, a, code),
    }
}

fn reply_by(
    board: &BoardWords,
    mission: &MissionWords,
    a: Answering,
    way: Option<Way>,
    room: usize,
) -> Replied
    requires { Made a }
    ensures { result ≡ replied_via (seated (decode_board board.now) (decode mission.now)) a way room }
{
    match way {
        Some(Way { port, code }) => {
            let s = survey::wanted(board, mission, port, sought_for(a, code, room));
            reply_among(a, port, code, s)
        }
        None => Replied {
            refusal: 0,
            ruling: verdict::copies::ruling_of(Local::No, Wish::Refused(Obstacle::NoRoute), 0),
            precedence: a.precedence,
            code: 0,
            far: 0,
            octets: 0,
        },
    }
}

// What becomes of the reply, with the route that was found for it.
pub fn finish(
    board: &BoardWords,
    mission: &MissionWords,
    a: Answering,
    way: Option<Way>,
    room: usize,
) -> Replied
    requires { a.made ≢ 0 → Made a }
    ensures { result ≡ replied_to (seated (decode_board board.now) (decode mission.now)) a way room }
{
    if a.made == 0 {
        return no_reply(a.refusal);
    }
    reply_by(board, mission, a, way, room)
}

// Writes the reply that goes to the front of the output.
pub fn write_reply(a: Answering, e: Replied, octets: &[u8], output: &mut [u8])
    requires { e.ruling.took ≢ 0 → Goes a e octets.now output.old }
    ensures { output.new ≡ replied_output a e octets.now output.old }
{
    if e.ruling.took == 0 {
        return;
    }
    let mut header = [0u8; LONGEST_HEADER];
    let size = builder::write_header(
        wire_fields(e.far != 0, a, e.code),
        echo::REPLY_SIZE + a.count,
        &mut header,
    );
    octets::put_front(&header[..size], output);
    let from = a.from;
    let to = from + a.count;
    let message = a.message;
    echo::write_message(message, &octets[from..to], &mut output[size..]);
}
