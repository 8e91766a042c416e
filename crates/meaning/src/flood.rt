// A flooded datagram, and the pair of source and timestamp that it is known by.
//
// Copies of one datagram come by many ports, with a hop count that differs, and with a source of one octet or of four. What they have in common is what
// their source names and all octets of their timestamp; so the source is filled in before it is compared, and a P-field is part of the time. A time
// has 56 bits at the most, behind a P-field of 8: both fit two words.
//
// The awkward case is a flooded datagram that has no source or no timestamp: it is refused by 28, and its pair, which is made all the same, is looked at
// by nobody.
ghost use Rattle.std.specs.Prelude.{◌≡◌};
ghost use Rattle.checks.specs.Order.{check_of};
ghost use Rattle.meaning.specs.Flood.{is_flooded, unmarked, upper_of, lower_of, source_in, pair_of};

use address::Address;
use checks::Check;
use header::{Fields, Timestamp};
use records::Pair;

// How many numbers 32 bits hold, and 24.
const WORD: u64 = 0x1_0000_0000;

const ABOVE: u32 = 0x100_0000;

// Whether a datagram asks to be flooded.
pub fn is_flooded(f: Fields) -> bool
    ensures { result ≡ is_flooded f }
{
    crate::routing_of(f.qos) == crate::FLOOD_ROUTING
}

// A flooded datagram has a source and a timestamp, else 28.
pub fn check_marked(f: Fields) -> Check
    ensures { result ≡ check_of (unmarked f) }
{
    if !is_flooded(f) {
        return Check::Passed;
    }
    if header::flags::source_flag(f.addresses) == 0 {
        return Check::Failed;
    }
    if header::flags::stamp_format(f.stamp) == 0 {
        return Check::Failed;
    }
    Check::Passed
}

// The P-field and the time's upper part.
fn upper_of(stamp: Option<Timestamp>) -> u32
    ensures { result ≡ upper_of stamp }
{
    match stamp {
        Some(Timestamp::Explicit(field, time)) => {
            field as u32 * ABOVE + (time / WORD) as u32 % ABOVE
        }
        _ => 0,
    }
}

// The time's lower part.
fn lower_of(stamp: Option<Timestamp>) -> u32
    ensures { result ≡ lower_of stamp }
{
    match stamp {
        None => 0,
        Some(Timestamp::Implicit(time)) => (time % WORD) as u32,
        Some(Timestamp::Explicit(_, time)) => (time % WORD) as u32,
        Some(Timestamp::Binary(time)) => (time % WORD) as u32,
    }
}

// The source's number, 0 where there is none.
pub fn source_in(o: Option<Address>) -> u32
    ensures { result ≡ source_in o }
{
    o.map_or(0, |a| a.0)
}

// The pair of a datagram that came in by the port of this address.
pub fn pair_of(port: Address, f: Fields) -> Pair
    ensures { result ≡ pair_of port.0 f }
{
    Pair {
        format: header::flags::stamp_format(f.stamp) as u32,
        source: Address(source_in(crate::origin_of(port, f.addresses))),
        upper: upper_of(f.stamp),
        lower: lower_of(f.stamp),
    }
}
