// What C is told of a call on datagrams, as one number.
//
// Receiving answers eight bits for each part, from the lowest on: the refusal, the local half, the onward half, the ports that took an entry,
// those that dropped it, the octets of the header that came, those of the header that was rewritten, and the ports that got it. Answering an echo request
// answers the first five of its reply, which has no local half, and then its octets in sixteen bits. Taking answers the refusal above 32 bits of entry: the
// precedence above the slot. The awkward case is a part over 255, which no ending has: each is taken modulo 256 all the same, so that no part can reach into
// the next.
#![tactic(auto)]

ghost use Rattle.std.specs.Prelude.{◌≡◌, ◌%◌, ◌^◌, ◌<◌};
ghost use Rattle.answers.specs.Answers.{ruling_parts, header_parts, receive_number, reply_number, numbered_taking, taking_number};

use judge::Ending;
use queue::Entry;
use verdict::Ruling;

// One part of an answer.
fn part(x: u32) -> u64
    ensures { result ≡ x % 256 }
{
    (x % 256) as u64
}

// One part of octets.
fn octets_part(n: usize) -> u64
    ensures { result ≡ n % 256 }
{
    (n % 256) as u64
}

// The five parts of the ruling in one number.
fn ruling_parts(refusal: u64, local: u64, onward: u64, took: u64, dropped: u64) -> u64
    requires { (refusal < 256) × ((local < 256) × ((onward < 256) × ((took < 256) × (dropped < 256)))) }
    ensures { (result ≡ ruling_parts refusal local onward took dropped) × (result < 2 ^ 40) }
{
    let halves = refusal + local * 0x100 + onward * 0x1_0000;
    halves + took * 0x100_0000 + dropped * 0x1_0000_0000
}

// The three parts of the headers above them.
fn header_parts(below: u64, size: u64, octets: u64, rewritten: u64) -> u64
    requires { (below < 2 ^ 40) × ((size < 256) × ((octets < 256) × (rewritten < 256))) }
    ensures { result ≡ header_parts below size octets rewritten }
{
    below + size * 0x100_0000_0000 + octets * 0x1_0000_0000_0000 + rewritten * 0x100_0000_0000_0000
}

// What receiving answers.
pub fn receive_number(e: Ending) -> u64
    ensures { result ≡ receive_number e }
{
    let x = e.ruling;
    let legs = e.legs;
    let below = ruling_parts(
        part(e.refusal),
        part(x.local.into()),
        part(x.onward.into()),
        part(x.took),
        part(x.dropped),
    );
    header_parts(
        below,
        octets_part(e.size),
        octets_part(legs.octets),
        part(legs.rewritten),
    )
}

// What answering an echo request answers, with so many octets of reply.
pub fn reply_number(refusal: u32, x: Ruling, octets: usize) -> u64
    ensures { result ≡ reply_number refusal x octets }
{
    let below = ruling_parts(
        part(refusal),
        0,
        part(x.onward.into()),
        part(x.took),
        part(x.dropped),
    );
    header_parts(below, octets_part(octets), octets_part(octets / 256), 0)
}

// What taking answers: the entry, or the refusal's number, whichever that is.
pub fn taking_number(t: Result<Entry, u32>) -> u64
    ensures { result ≡ taking_number (numbered_taking t) }
{
    match t {
        Ok(e) => e.precedence as u64 * 0x1_0000 + e.slot.0 as u64,
        Err(number) => checks::refusal_number(number),
    }
}
