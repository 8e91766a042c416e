// SCMP Echo Request and Echo Reply, read and built.
//
// A message is the user data of a datagram: type, code and checksum, then an identifier and a sequence number by which the sender knows the reply, then,
// in a reply, what the answering system saw of the request, then any data. What a reply says of the request (hop count, timestamp, MTU) is how the ground finds out, leg by
// leg, how far a request came. Both messages are one kind here, since they differ by that alone.
//
// The awkward part is the checksum, which stands among the octets that it sums. The writer writes it as zero, sums, and writes it again. The reader
// cannot write: it adds the two octets before it to the sum of those behind it, which is the same (proofs/Sums.antt), since it stands at an even place.
#![tactic(auto)]

ghost use Rattle.std.specs.Prelude.{◌≡◌, false, ◌+◌, ◌≤◌, ltb, length};
ghost use Rattle.checks.specs.Order.{check_of, outcome};
ghost use Rattle.octets.specs.Octets.{number, pasted, fronted};
ghost use Rattle.checksum.specs.Sum.{around, checksum_of};
ghost use Rattle.echo.specs.Message.{
  type_of,
  request_size,
  reply_size,
  fixed_size,
  seen_octets,
  kind_octets,
  fixed_octets,
  message_octets,
  seen_of,
  kind_of,
  is_request_type,
  unsummed,
  other_type,
  cut_reply,
  wrong_sum,
  echo_refusals,
  message_of,
};
ghost use Rattle.echo.specs.Built.{size_with, build_refusals, built_output};

use checks::{Check, Refusal};

// The octets of the fixed part, behind which the data begin.
pub const REQUEST_SIZE: usize = 8;

pub const REPLY_SIZE: usize = 26;

const REQUEST_TYPE: u8 = 8;

const REPLY_TYPE: u8 = 0;

// Where the checksum stands, and where the octets behind it begin.
const CHECKSUM_AT: usize = 2;

const BEHIND_CHECKSUM: usize = 4;

// What a reply says of the request that it answers: its hop count, its timestamp's format and the timestamp itself; the MTU of the port that it came in by,
// and that port's bit rate, 0 where it is not known.
#[derive(Clone, Copy)]
pub struct Seen {
    pub hops: u8,
    pub format: u8,
    pub stamp: u64,
    pub mtu: u32,
    pub rate: u32,
}

#[derive(Clone, Copy)]
pub enum Kind {
    Request,
    Reply(Seen),
}

// A message but for its data.
#[derive(Clone, Copy)]
pub struct Message {
    pub identifier: u16,
    pub sequence: u16,
    pub kind: Kind,
}

// Where the data begin.
pub fn fixed_size(k: Kind) -> usize
    ensures { result ≡ fixed_size k }
{
    match k {
        Kind::Request => REQUEST_SIZE,
        Kind::Reply(_) => REPLY_SIZE,
    }
}

// An echo message of either type (4).
fn check_type(s: &[u8]) -> Check
    ensures { result ≡ check_of (other_type s.now) }
{
    if octets::octet_at(s, 1) != 0 {
        return Check::Failed;
    }
    let number = octets::octet_at(s, 0);
    if number == REQUEST_TYPE {
        return Check::Passed;
    }
    if number == REPLY_TYPE {
        return Check::Passed;
    }
    Check::Failed
}

// A reply has its fixed part whole (1).
fn check_whole(s: &[u8]) -> Check
    ensures { result ≡ check_of (cut_reply s.now) }
{
    if octets::octet_at(s, 0) != REPLY_TYPE {
        return Check::Passed;
    }
    if s.len() < REPLY_SIZE {
        return Check::Failed;
    }
    Check::Passed
}

// The number of two octets.
fn pair_at(s: &[u8], place: usize) -> u16
    requires { place + 2 ≤ length s.now }
    ensures { result ≡ number s.now place 2 }
{
    octets::number_at(s, place, 2) as u16
}

// What is above 16 bits of a sum, brought round.
fn brought_round(sum: u32) -> u32
    ensures { result ≡ around sum }
{
    sum % 65536 + sum / 65536
}

// What the checksum should be.
fn sum_asked(s: &[u8]) -> u16
    requires { request_size ≤ length s.now }
    ensures { result ≡ checksum_of (unsummed s.now) }
{
    let before = pair_at(s, 0) as u32;
    let behind = checksum::ones_sum(&s[BEHIND_CHECKSUM..]);
    (65535 - brought_round(before + behind)) as u16
}

// The checksum is what it should be (5).
fn check_sum(s: &[u8]) -> Check
    requires { request_size ≤ length s.now }
    ensures { result ≡ check_of (wrong_sum s.now) }
{
    if pair_at(s, CHECKSUM_AT) != sum_asked(s) {
        return Check::Failed;
    }
    Check::Passed
}

// What a reply says of the request.
fn seen_in(s: &[u8]) -> Seen
    requires { reply_size ≤ length s.now }
    ensures { result ≡ seen_of s.now }
{
    Seen {
        hops: octets::octet_within(s, 8),
        format: octets::octet_within(s, 9),
        stamp: octets::long_at(s, 10),
        mtu: octets::word_at(s, 18),
        rate: octets::word_at(s, 22),
    }
}

fn kind_in(s: &[u8]) -> Kind
    requires { is_request_type s.now ≡ false → reply_size ≤ length s.now }
    ensures { result ≡ kind_of s.now }
{
    if octets::octet_at(s, 0) == REQUEST_TYPE {
        return Kind::Request;
    }
    Kind::Reply(seen_in(s))
}

// Reads an echo message.
pub fn read_message(s: &[u8]) -> Result<Message, Refusal>
    ensures { result ≡ outcome (echo_refusals s.now) (message_of s.now) }
{
    if s.len() < REQUEST_SIZE {
        return Err(Refusal::TooShort);
    }
    let Check::Passed = check_type(s) else {
        return Err(Refusal::WrongForm);
    };
    let Check::Passed = check_whole(s) else {
        return Err(Refusal::TooShort);
    };
    let Check::Passed = check_sum(s) else {
        return Err(Refusal::WrongChecksum);
    };
    Ok(Message {
        identifier: pair_at(s, 4),
        sequence: pair_at(s, 6),
        kind: kind_in(s),
    })
}

// The number that tells the messages apart.
pub fn type_number(k: Kind) -> u8
    ensures { result ≡ type_of k }
{
    match k {
        Kind::Request => REQUEST_TYPE,
        Kind::Reply(_) => REPLY_TYPE,
    }
}

// What a reply says of the request, from a place on.
fn put_seen(out: &mut [u8], place: usize, s: Seen) -> usize
    requires { place + 18 ≤ length out.old }
    ensures value { result ≡ place + 18 }
    ensures out_after { out.new ≡ pasted out.old place (seen_octets s) }
{
    let a = octets::put_number(out, place, 1, s.hops as u64);
    let b = octets::put_number(out, a, 1, s.format as u64);
    let c = octets::put_number(out, b, 8, s.stamp);
    let d = octets::put_number(out, c, 4, s.mtu as u64);
    octets::put_number(out, d, 4, s.rate as u64)
}

fn put_kind(out: &mut [u8], place: usize, k: Kind) -> usize
    requires { place + length (kind_octets k) ≤ length out.old }
    ensures value { result ≡ place + length (kind_octets k) }
    ensures out_after { out.new ≡ pasted out.old place (kind_octets k) }
{
    match k {
        Kind::Request => place,
        Kind::Reply(s) => put_seen(out, place, s),
    }
}

// The fixed part at the front, its checksum as zero; answers where the data begin.
fn put_fixed(out: &mut [u8], m: Message) -> usize
    requires { fixed_size m.kind ≤ length out.old }
    ensures value { result ≡ fixed_size m.kind }
    ensures out_after { out.new ≡ pasted out.old 0 (fixed_octets m 0) }
{
    let kind = m.kind;
    let a = octets::put_number(out, 0, 1, type_number(kind) as u64);
    let b = octets::put_number(out, a, 1, 0);
    let c = octets::put_number(out, b, 2, 0);
    let d = octets::put_number(out, c, 2, m.identifier as u64);
    let e = octets::put_number(out, d, 2, m.sequence as u64);
    put_kind(out, e, kind)
}

// Writes a message with these data to the front of the output; answers its octets.
pub fn write_message(m: Message, echoed: &[u8], out: &mut [u8]) -> usize
    requires { fixed_size m.kind + length echoed.now ≤ length out.old }
    ensures value { result ≡ fixed_size m.kind + length echoed.now }
    ensures out_after { out.new ≡ fronted (message_octets m echoed.now) out.old }
{
    let from = put_fixed(out, m);
    let size = from + echoed.len();
    octets::put_front(echoed, &mut out[from..size]);
    let sum = checksum::checksum(&out[..size]);
    octets::put_number(out, CHECKSUM_AT, 2, sum as u64);
    size
}

// The output has room for the message (17).
fn check_room(from: usize, echoed: usize, room: usize) -> Check
    ensures { result ≡ check_of (ltb room (from + echoed)) }
{
    if room < from {
        return Check::Failed;
    }
    if room - from < echoed {
        return Check::Failed;
    }
    Check::Passed
}

// Builds a message with these data at the front of the output.
pub fn build_message(m: Message, echoed: &[u8], out: &mut [u8]) -> Result<usize, Refusal>
    ensures value { result ≡ outcome (build_refusals m (length echoed.now) (length out.old)) (size_with m (length echoed.now)) }
    ensures out_after { out.new ≡ built_output m echoed.now out.old }
{
    let kind = m.kind;
    let from = fixed_size(kind);
    let Check::Passed = check_room(from, echoed.len(), out.len()) else {
        return Err(Refusal::NoOutputRoom);
    };
    let Check::Passed = header::limits::check_data(from + echoed.len()) else {
        return Err(Refusal::TooMuchData);
    };
    Ok(write_message(m, echoed, out))
}
