// Whether numbers from C stand for some fields.
//
// A flag is 0 or 1, an element that is absent has only zeros, an address fits its type, and no number is wider than the machine word
// that will hold it; what is narrower still on the wire is the builder's to test. Both give refusal 19. The numbers that pass are
// exactly those that some fields have, and come back from the fields made of them (module `fields_from`; proofs/validity/Inverse.antt). The awkward
// case is a source that is absent but has an address: it is refused and not dropped, since whoever wrote it meant something by it.
ghost use Rattle.std.specs.Prelude.{◌≡◌};
ghost use Rattle.checks.specs.Order.{check_of};
ghost use Rattle.numbers.specs.Out.{
  wide_out,
  address_limit,
  any_over,
  address_flags_out,
  address_widths_out,
  octet_out,
  qos_out,
  pfield_limit,
  stamp_out,
  elements_out,
  numbers_out,
};

use crate::{Numbers, Wide};
use checks::Check;

// A number under a limit.
fn check_wide(limit: u64, w: Wide) -> Check
    ensures { result ≡ check_of (wide_out limit w) }
{
    if w.high != 0 {
        return Check::Failed;
    }
    if limit <= w.low {
        return Check::Failed;
    }
    Check::Passed
}

// How many numbers an address has to choose from; an absent one has only 0.
fn address_limit(on: u32, extended: u32) -> u64
    ensures { result ≡ address_limit on extended }
{
    if on == 0 {
        return 1;
    }
    if extended == 1 {
        return 4294967296;
    }
    256
}

// Three numbers under a limit.
fn check_under(limit: u32, x: u32, y: u32, z: u32) -> Check
    ensures { result ≡ check_of (any_over limit x y z) }
{
    if limit <= x {
        return Check::Failed;
    }
    if limit <= y {
        return Check::Failed;
    }
    if limit <= z {
        return Check::Failed;
    }
    Check::Passed
}

// The address flags are flags and go together.
fn check_address_flags(n: Numbers) -> Check
    ensures { result ≡ check_of (address_flags_out n) }
{
    let Check::Passed = check_under(2, n.sourced, n.extended, n.ipv6) else {
        return Check::Failed;
    };
    layout::check_ipv6(n.ipv6, n.extended, n.sourced)
}

// The addresses fit their type, IPv6 addresses always.
fn check_address_widths(n: Numbers) -> Check
    ensures { result ≡ check_of (address_widths_out n) }
{
    if n.ipv6 == 1 {
        return Check::Passed;
    }
    let destination = n.destination;
    let Check::Passed = check_wide(address_limit(1, n.extended), destination) else {
        return Check::Failed;
    };
    let source = n.source;
    check_wide(address_limit(n.sourced, n.extended), source)
}

// An element of one octet: a flag, and a number that fits, 0 where absent.
fn check_octet(on: u32, v: u32) -> Check
    ensures { result ≡ check_of (octet_out on v) }
{
    if 2 <= on {
        return Check::Failed;
    }
    if on == 0 {
        if 1 <= v {
            return Check::Failed;
        }
        return Check::Passed;
    }
    if 256 <= v {
        return Check::Failed;
    }
    Check::Passed
}

// Basic QOS: each subfield as such an element.
fn check_qos(n: Numbers) -> Check
    ensures { result ≡ check_of (qos_out n) }
{
    let Check::Passed = check_octet(n.qualified, n.precedence) else {
        return Check::Failed;
    };
    let Check::Passed = check_octet(n.qualified, n.routing) else {
        return Check::Failed;
    };
    check_octet(n.qualified, n.program)
}

// How many numbers the P-field of a format has to choose from; only an explicit one has any but 0.
fn pfield_limit(format: u32) -> u32
    ensures { result ≡ pfield_limit format }
{
    if format == 2 {
        return 256;
    }
    1
}

// A format, a P-field where it has one, and a time where there is a timestamp.
fn check_stamp(n: Numbers) -> Check
    ensures { result ≡ check_of (stamp_out n) }
{
    if 4 <= n.format {
        return Check::Failed;
    }
    if pfield_limit(n.format) <= n.pfield {
        return Check::Failed;
    }
    if n.format != 0 {
        return Check::Passed;
    }
    if n.time != 0 {
        return Check::Failed;
    }
    Check::Passed
}

// The elements behind the addresses.
fn check_elements(n: Numbers) -> Check
    ensures { result ≡ check_of (elements_out n) }
{
    let Check::Passed = check_qos(n) else {
        return Check::Failed;
    };
    let Check::Passed = check_octet(n.counted, n.hops) else {
        return Check::Failed;
    };
    let Check::Passed = check_octet(n.expands, n.expanded) else {
        return Check::Failed;
    };
    check_stamp(n)
}

// The numbers stand for some fields: TP-ID and the two flags fit an octet (the builder bounds them further), and so on.
pub fn check_numbers(n: Numbers) -> Check
    ensures { result ≡ check_of (numbers_out n) }
{
    let Check::Passed = check_under(256, n.tpid, n.checksum, n.intermediate) else {
        return Check::Failed;
    };
    let Check::Passed = check_address_flags(n) else {
        return Check::Failed;
    };
    let Check::Passed = check_address_widths(n) else {
        return Check::Failed;
    };
    check_elements(n)
}
