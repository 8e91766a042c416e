// The front of a header: version, length field, TP-ID and the control field, as numbers and then as octets.
//
// A flag says whether an element is there (`header::flags`), and its bit has its own weight in a control octet (`header::control_bits`), so
// an octet is a sum and never wraps. The field is as short as it goes: an octet of it stands there only where it says something, and the one before
// then says that it follows. So the third control octet is made first, the second from it, the first from that. The awkward case is an
// octet that says nothing: it is written like the others, as a number of no octets.
ghost use Rattle.std.specs.Prelude.{◌≡◌, ◌+◌, ◌*◌, ◌≤◌, ◌<◌, length};
ghost use Rattle.octets.specs.Octets.{pasted};
ghost use Rattle.header.specs.Limits.{length_limit};
ghost use Rattle.header.specs.Build.{present, third_octet, second_octet, front_octets};

use header::{Fields, control_bits};

// 1 where a control octet says something and so is present, else 0.
pub fn presence(octet: u8) -> u8
    ensures { result ≡ present octet }
{
    if octet == 0 { 0 } else { 1 }
}

// Bits 32 to 39.
pub fn third_octet(f: Fields) -> u8
    requires { f.intermediate < 2 }
    ensures { result ≡ third_octet f }
{
    control_bits::IPV6 * header::flags::ipv6_flag(f.addresses)
        + control_bits::EXPANDED * header::flags::octet_flag(f.expanded)
        + control_bits::INTERMEDIATE * f.intermediate
}

// Bits 24 to 31, once the third octet is known.
pub fn second_octet(f: Fields, third: u8) -> u8
    requires { third ≡ third_octet f }
    ensures { result ≡ second_octet f }
{
    control_bits::THIRD_OCTET * presence(third)
        + control_bits::SOURCE * header::flags::source_flag(f.addresses)
        + control_bits::HOPS * header::flags::octet_flag(f.hops)
        + control_bits::STAMP * header::flags::stamp_format(f.stamp)
        + control_bits::QOS * header::flags::qos_flag(f.qos)
        + control_bits::EXTENDED * header::flags::extended_flag(f.addresses)
}

// Version, length field, TP-ID and control field; `shared` is the octet that TP-ID and bits 20 to 23 share. A length that does not fit its field
// runs into the version; who sends such a header has tested its length before.
pub fn put_front(out: &mut [u8], len: usize, shared: u8, second: u8, third: u8) -> usize
    requires { (5 ≤ length out.old) × (len < 2 * length_limit) }
    ensures value { result ≡ 0 + length (front_octets len shared second third) }
    ensures out_after { out.new ≡ pasted out.old 0 (front_octets len shared second third) }
{
    let a = octets::put_number(out, 0, 2, (header::limits::LENGTH_LIMIT + len) as u64);
    let b = octets::put_number(out, a, 1, shared as u64);
    let c = octets::put_number(out, b, presence(second) as usize, second as u64);
    octets::put_number(out, c, presence(third) as usize, third as u64)
}
