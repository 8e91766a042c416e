// What C calls to read and to build echo messages.
//
// A message that was read stands in ten lent words, as the fields of a header do (crate harpjuniper); what is built is asked for in plain numbers, since
// there are few of them. None requires anything: whatever octets, lengths, numbers or words come, the answer is the one that the definitions state. An answer that
// is a refusal or a value is one number of 64 bits, the refusal above the value.
//
// The awkward case is a request, which has no numbers of what was seen: their words are 0, and the type tells it from a reply that has them 0.
#![tactic(auto)]

ghost use Rattle.std.specs.Prelude.{◌≡◌, length};
ghost use Rattle.checks.specs.Told.{told};
ghost use Rattle.echo.specs.Message.{reading_of};
ghost use Rattle.echo.specs.Built.{built_of, built_output};
ghost use Rattle.harpjuniper_messages.specs.Face.{
  message_count,
  seen_in,
  message_words,
  read_answer,
  read_left,
  message_with,
  request_of,
  reply_of,
  built_answer,
};

use checks::Refusal;
use echo::{Kind, Message, Seen};

// The words of a message: type, identifier, sequence, where its data begin, and what was seen.
const MESSAGE_WORDS: usize = 10;

// How many numbers a word has to choose from.
const WORD: u64 = 4294967296;

// What a message says of a request, nothing as zeros.
fn seen_in(k: Kind) -> Seen
    ensures { result ≡ seen_in k }
{
    match k {
        Kind::Request => Seen {
            hops: 0,
            format: 0,
            stamp: 0,
            mtu: 0,
            rate: 0,
        },
        Kind::Reply(s) => s,
    }
}

// Writes a message that was read over all words lent.
fn write_words(words: &mut [u32], m: Message)
    requires { length words.old ≡ message_count }
    ensures { words.new ≡ message_words m }
{
    let kind = m.kind;
    let seen = seen_in(kind);
    words[0] = echo::type_number(kind) as u32;
    words[1] = m.identifier as u32;
    words[2] = m.sequence as u32;
    words[3] = echo::fixed_size(kind) as u32;
    words[4] = seen.hops as u32;
    words[5] = seen.format as u32;
    words[6] = (seen.stamp / WORD) as u32;
    words[7] = (seen.stamp % WORD) as u32;
    words[8] = seen.mtu;
    words[9] = seen.rate;
}

// Reads the echo message that the octets are.
#[unsafe(no_mangle)]
pub extern "C" fn hj_read_echo_words(message: &[u8], words: &mut [u32]) -> u32
    ensures value { result ≡ read_answer (length words.old) (reading_of message.now) }
    ensures words_after { words.new ≡ read_left (reading_of message.now) words.old }
{
    if words.len() != MESSAGE_WORDS {
        return Refusal::NoPlace.number();
    }
    match echo::read_message(message) {
        Err(refusal) => refusal.number(),
        Ok(m) => {
            write_words(words, m);
            0
        }
    }
}

// What building answers, as one number.
fn built_answer(b: Result<usize, Refusal>) -> u64
    ensures { result ≡ built_answer (told b) }
{
    match b {
        Ok(size) => size as u64,
        Err(refusal) => checks::refusal_number(refusal.number()),
    }
}

fn message_with(identifier: u16, sequence: u16, kind: Kind) -> Message
    ensures { result ≡ message_with identifier sequence kind }
{
    Message {
        identifier: identifier,
        sequence: sequence,
        kind: kind,
    }
}

// Builds a request with these data at the front of the output.
#[unsafe(no_mangle)]
pub extern "C" fn hj_build_request(
    identifier: u16,
    sequence: u16,
    echoed: &[u8],
    output: &mut [u8],
) -> u64
    ensures value { result ≡ built_answer (built_of (request_of identifier sequence) (length echoed.now) (length output.old)) }
    ensures output_after { output.new ≡ built_output (request_of identifier sequence) echoed.now output.old }
{
    let m = message_with(identifier, sequence, Kind::Request);
    built_answer(echo::build_message(m, echoed, output))
}

// Builds a reply that says this of the request, with these data, at the front of the output.
#[unsafe(no_mangle)]
pub extern "C" fn hj_build_reply(
    identifier: u16,
    sequence: u16,
    hops: u8,
    format: u8,
    stamp: u64,
    mtu: u32,
    rate: u32,
    echoed: &[u8],
    output: &mut [u8],
) -> u64
    ensures value { result
        ≡ built_answer
        (built_of (reply_of identifier sequence hops format stamp mtu rate) (length echoed.now) (length output.old)) }
    ensures output_after { output.new
        ≡ built_output (reply_of identifier sequence hops format stamp mtu rate) echoed.now output.old }
{
    let seen = Seen {
        hops: hops,
        format: format,
        stamp: stamp,
        mtu: mtu,
        rate: rate,
    };
    let m = message_with(identifier, sequence, Kind::Reply(seen));
    built_answer(echo::build_message(m, echoed, output))
}
