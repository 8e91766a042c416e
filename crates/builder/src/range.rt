// Refusal 19: a number that is too large for its element.
//
// The kinds of a header leave few numbers that can be wrong: an octet is an octet and an address has its own width. What is tested
// here is what is narrower on the wire than in a machine word: TP-ID, the two flags, the three subfields of basic QOS and the time
// of a timestamp. The awkward one is the time behind an explicit P-field, whose bound is 256 to the power that the P-field gives.
ghost use Rattle.std.specs.Prelude.{◌≡◌, ◌≤◌, ◌^◌, leb};
ghost use Rattle.checks.specs.Order.{check_of};
ghost use Rattle.header.specs.Range.{qos_out_of_range, stamp_out_of_range, out_of_range};

use checks::Check;
use header::{Fields, Qos, Timestamp};

// 256 to a power: how many numbers fit that many octets.
fn numbers_in(octets: usize) -> u64
    requires { octets ≤ 7 }
    ensures { result ≡ 256 ^ octets }
{
    1u64 << (8 * octets)
}

// Precedence under 16, routing requirements and program specific under 4.
fn check_qos(q: Option<Qos>) -> Check
    ensures { result ≡ check_of (qos_out_of_range q) }
{
    let Some(q) = q else {
        return Check::Passed;
    };
    if 16 <= q.precedence || 4 <= q.routing || 4 <= q.program {
        return Check::Failed;
    }
    Check::Passed
}

// A time that fits so many octets.
fn check_time(octets: usize, time: u64) -> Check
    requires { octets ≤ 7 }
    ensures { result ≡ check_of (leb (256 ^ octets) time) }
{
    if numbers_in(octets) <= time {
        return Check::Failed;
    }
    Check::Passed
}

// The time fits the octets that the format gives it.
fn check_stamp(t: Option<Timestamp>) -> Check
    ensures { result ≡ check_of (stamp_out_of_range t) }
{
    match t {
        None => Check::Passed,
        Some(Timestamp::Implicit(time)) => check_time(3, time),
        Some(Timestamp::Explicit(p, time)) => check_time(header::pfield::time_size(p), time),
        Some(Timestamp::Binary(time)) => check_time(4, time),
    }
}

// Every number fits its element.
pub fn check_fields(f: Fields) -> Check
    ensures { result ≡ check_of (out_of_range f) }
{
    if 16 <= f.tpid || 2 <= f.checksum || 2 <= f.intermediate {
        return Check::Failed;
    }
    let Check::Passed = check_qos(f.qos) else {
        return Check::Failed;
    };
    check_stamp(f.stamp)
}
