// The fields of a header, each read from its place.
//
// The places are known by now (crate layout), and the control field says which elements are there: a function for each element makes
// its value of the octets at its place, or says that it is absent, and no function here can refuse. It is known too that the header lies
// within the octets lent, since check 3 comes before: so no octet is asked for twice. The awkward case is the addresses: three bits, in
// two control octets, choose between the five rows of table 3-5, and only what check 4 forbids would let an IPv6 source lie past the end.
ghost use Rattle.std.specs.Prelude.{◌≡◌, false, ◌+◌, ◌≤◌, length};
ghost use Rattle.octets.specs.Octets.{octet};
ghost use Rattle.header.specs.Form.{forbidden, qos_place, stamp_size, layout_of};
ghost use Rattle.header.specs.Read.{six_of, addresses_of, qos_of, octet_of, stamp_of, length_of, fields_of};

use address::{Address, PathAddress};
use header::{Addresses, Control, Fields, Layout, Qos, Six, Timestamp, control_bits};

// An address of sixteen octets.
fn six_at(s: &[u8], place: usize) -> Six
    requires { place + 16 ≤ length s.now }
    ensures { result ≡ six_of s.now place }
{
    Six {
        high: octets::long_at(s, place),
        low: octets::long_at(s, place + 8),
    }
}

// The addresses that stand behind a control field.
fn addresses_at(s: &[u8], k: Control) -> Addresses
    requires { (forbidden k ≡ false) × (qos_place k ≤ length s.now) }
    ensures { result ≡ addresses_of s.now k }
{
    let at = k.end;
    if control_bits::is_ipv6(k) == 1 {
        return Addresses::Ipv6(six_at(s, at), six_at(s, at + 16));
    }
    if control_bits::is_extended(k) == 1 {
        let destination = octets::word_at(s, at);
        if control_bits::has_source(k) == 1 {
            let source = octets::word_at(s, at + 4);
            return Addresses::ExtendedEndSystem(Address(destination), Address(source));
        }
        return Addresses::ExtendedPath(PathAddress(destination));
    }
    let destination = octets::octet_within(s, at);
    if control_bits::has_source(k) == 1 {
        return Addresses::BasicEndSystem(destination, octets::octet_within(s, at + 1));
    }
    Addresses::BasicPath(destination)
}

// Basic QOS at a place, where it is on.
fn qos_at(s: &[u8], on: u8, place: usize) -> Option<Qos>
    requires { place + on ≤ length s.now }
    ensures { result ≡ qos_of s.now on place }
{
    if on == 0 {
        return None;
    }
    let octet = octets::octet_within(s, place);
    let (routing, program) = (octet / 4 % 4, octet % 4);
    Some(Qos {
        precedence: octet / 16,
        routing,
        program,
    })
}

// An element of one octet at a place, where it is on.
fn element_at(s: &[u8], on: u8, place: usize) -> Option<u8>
    requires { place + on ≤ length s.now }
    ensures { result ≡ octet_of s.now on place }
{
    if on == 0 {
        return None;
    }
    Some(octets::octet_within(s, place))
}

// The timestamp of a format at a place.
fn stamp_at(s: &[u8], format: u8, place: usize) -> Option<Timestamp>
    requires { place + stamp_size format (octet s.now place) ≤ length s.now }
    ensures { result ≡ stamp_of s.now format place }
{
    match format {
        0 => None,
        1 => Some(Timestamp::Implicit(octets::number_at(s, place, 3))),
        2 => {
            let p = octets::octet_within(s, place);
            let time_size = header::pfield::time_size(p);
            Some(Timestamp::Explicit(p, octets::number_at(s, place + 1, time_size)))
        }
        _ => Some(Timestamp::Binary(octets::number_at(s, place, 4))),
    }
}

// The length field.
pub fn length_at(s: &[u8]) -> usize
    ensures { result ≡ length_of s.now }
{
    (octets::octet_at(s, 0) % 32) as usize * 256 + octets::octet_at(s, 1) as usize
}

// All fields, each from its place.
pub fn fields_at(s: &[u8], k: Control, l: Layout) -> Fields
    requires { (forbidden k ≡ false) × ((l ≡ layout_of s.now k) × (l.size ≤ length s.now)) }
    ensures { result ≡ fields_of s.now k l }
{
    Fields {
        tpid: octets::octet_at(s, 2) / 16,
        addresses: addresses_at(s, k),
        qos: qos_at(s, control_bits::has_qos(k), l.qos),
        hops: element_at(s, control_bits::has_hops(k), l.hops),
        stamp: stamp_at(s, control_bits::format_bits(k), l.stamp),
        expanded: element_at(s, control_bits::has_expanded(k), l.expanded),
        checksum: control_bits::has_checksum(k),
        intermediate: control_bits::is_intermediate(k),
    }
}
