// The control field and where each element stands.
//
// A header says by the bits of its control field which elements follow, and the elements lie end to end in one fixed order, so a
// place is the sum of the sizes before it. The reader needs the places to find the fields, a header that is kept to find hop count
// and checksum. The awkward one is the timestamp with an explicit P-field: every place behind it waits for the octet at its own.
#![tactic(auto)]

ghost use Rattle.std.specs.Prelude.{◌≡◌, ◌≤◌};
ghost use Rattle.checks.specs.Order.{check_of};
ghost use Rattle.header.specs.Form.{control_of, forbidden, wrong_ipv6, address_size, stamp_size, layout_of};

use checks::Check;
use header::{Control, Layout, control_bits};

// The control field of the octets; an octet that is not there counts as 0.
pub fn control_of(s: &[u8]) -> Control
    ensures { result ≡ control_of s.now }
{
    let first = octets::octet_at(s, 2) % 16;
    let more = control_bits::second_follows(first);
    let second = more * octets::octet_at(s, 3);
    let most = control_bits::third_follows(second);
    let third = most * octets::octet_at(s, 4);
    Control {
        first,
        second,
        third,
        end: 3 + more as usize + most as usize,
    }
}

// Whether the standard allows the control bits.
pub fn check_form(k: Control) -> Check
    ensures { result ≡ check_of (forbidden k) }
{
    if control_bits::reserved_21(k) == 1 {
        return Check::Failed;
    }
    if control_bits::has_destination(k) == 0 {
        return Check::Failed;
    }
    if control_bits::reserved_29(k) == 1 {
        return Check::Failed;
    }
    if control_bits::fourth_follows(k) == 1 {
        return Check::Failed;
    }
    if control_bits::unassigned_bits(k) != 0 {
        return Check::Failed;
    }
    check_ipv6(
        control_bits::is_ipv6(k) as u32,
        control_bits::is_extended(k) as u32,
        control_bits::has_source(k) as u32,
    )
}

// IPv6 addresses are not extended and come with a source.
pub fn check_ipv6(ipv6: u32, extended: u32, sourced: u32) -> Check
    ensures { result ≡ check_of (wrong_ipv6 ipv6 extended sourced) }
{
    if ipv6 != 1 {
        return Check::Passed;
    }
    if extended == 1 {
        return Check::Failed;
    }
    if sourced == 0 {
        return Check::Failed;
    }
    Check::Passed
}

// The octets of one address.
pub fn address_size(k: Control) -> usize
    ensures { result ≡ address_size k }
{
    if control_bits::is_ipv6(k) == 1 {
        return 16;
    }
    if control_bits::is_extended(k) == 1 {
        return 4;
    }
    1
}

// The octets of a timestamp, by its format and its first octet.
pub fn stamp_size(format: u8, first: u8) -> usize
    ensures { result ≡ stamp_size format first }
{
    match format {
        0 => 0,
        1 => 3,
        2 => 1 + header::pfield::time_size(first),
        _ => 4,
    }
}

// Where each element stands behind a control field.
pub fn layout_of(s: &[u8], k: Control) -> Layout
    requires { k.end ≤ 5 }
    ensures { result ≡ layout_of s.now k }
{
    let one = address_size(k);
    let qos = k.end + one + control_bits::has_source(k) as usize * one;
    let hops = qos + control_bits::has_qos(k) as usize;
    let stamp = hops + control_bits::has_hops(k) as usize;
    let expanded = stamp + stamp_size(control_bits::format_bits(k), octets::octet_at(s, stamp));
    let checksum = expanded + control_bits::has_expanded(k) as usize;
    Layout {
        qos,
        hops,
        stamp,
        expanded,
        checksum,
        size: checksum + 2 * control_bits::has_checksum(k) as usize,
    }
}
