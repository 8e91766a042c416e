// How many octets a header of the built form has, before it is written.
//
// The relay asks this of a header that is rewritten for its next leg: whether the datagram still fits the port is decided before an octet of it is
// written. The awkward part is the control field, whose second and third octets are there only where they say something.
ghost use Rattle.std.specs.Prelude.{◌≡◌, ◌<◌, length};
ghost use Rattle.header.specs.Build.{rest_octets, size_of};
ghost use Rattle.builder.specs.Measure.{addresses_size, timestamp_size};

use header::{Addresses, Fields, Timestamp};

// The addresses, by their row of table 3-5.
fn addresses_size(a: Addresses) -> usize
    ensures { result ≡ addresses_size a }
{
    match a {
        Addresses::BasicPath(_) => 1,
        Addresses::ExtendedPath(_) => 4,
        Addresses::BasicEndSystem(_, _) => 2,
        Addresses::ExtendedEndSystem(_, _) => 8,
        Addresses::Ipv6(_, _) => 32,
    }
}

// A timestamp, by its format.
fn stamp_size(t: Option<Timestamp>) -> usize
    ensures { result ≡ timestamp_size t }
{
    match t {
        None => 0,
        Some(Timestamp::Implicit(_)) => 3,
        Some(Timestamp::Explicit(p, _)) => 1 + header::pfield::time_size(p),
        Some(Timestamp::Binary(_)) => 4,
    }
}

// The elements between control field and checksum.
fn rest_size(f: Fields) -> usize
    ensures { result ≡ length (rest_octets f) }
{
    addresses_size(f.addresses)
        + header::flags::qos_flag(f.qos) as usize
        + header::flags::octet_flag(f.hops) as usize
        + stamp_size(f.stamp)
        + header::flags::octet_flag(f.expanded) as usize
}

// The header whole.
pub fn header_size(f: Fields) -> usize
    requires { (f.checksum < 2) × (f.intermediate < 2) }
    ensures { result ≡ size_of f }
{
    let third = writer::front::third_octet(f);
    let second = writer::front::second_octet(f, third);
    let control = 3
        + writer::front::presence(second) as usize
        + writer::front::presence(third) as usize;
    control + rest_size(f) + 2 * f.checksum as usize
}
