// What the control field says of each element.
//
// An element has a bit that says whether it is there, or two for the timestamp's format; the addresses have three between them
// (003, table 3-6). The builder puts them into the control octets, and C gets them as flags beside the numbers.
ghost use Rattle.std.specs.Prelude.{◌≡◌};
ghost use Rattle.header.specs.Build.{
  source_flag,
  extended_flag,
  ipv6_flag,
  qos_flag,
  octet_flag,
  format_of,
};

use crate::{Addresses, Qos, Timestamp};

// The address flags of table 3-6.
pub fn source_flag(a: Addresses) -> u8
    ensures { result ≡ source_flag a }
{
    match a {
        Addresses::BasicPath(_) => 0,
        Addresses::ExtendedPath(_) => 0,
        Addresses::BasicEndSystem(_, _) => 1,
        Addresses::ExtendedEndSystem(_, _) => 1,
        Addresses::Ipv6(_, _) => 1,
    }
}

pub fn extended_flag(a: Addresses) -> u8
    ensures { result ≡ extended_flag a }
{
    match a {
        Addresses::BasicPath(_) => 0,
        Addresses::ExtendedPath(_) => 1,
        Addresses::BasicEndSystem(_, _) => 0,
        Addresses::ExtendedEndSystem(_, _) => 1,
        Addresses::Ipv6(_, _) => 0,
    }
}

pub fn ipv6_flag(a: Addresses) -> u8
    ensures { result ≡ ipv6_flag a }
{
    match a {
        Addresses::BasicPath(_) => 0,
        Addresses::ExtendedPath(_) => 0,
        Addresses::BasicEndSystem(_, _) => 0,
        Addresses::ExtendedEndSystem(_, _) => 0,
        Addresses::Ipv6(_, _) => 1,
    }
}

pub fn qos_flag(q: Option<Qos>) -> u8
    ensures { result ≡ qos_flag q }
{
    match q {
        None => 0,
        Some(_) => 1,
    }
}

pub fn octet_flag(o: Option<u8>) -> u8
    ensures { result ≡ octet_flag o }
{
    match o {
        None => 0,
        Some(_) => 1,
    }
}

// The timestamp's format, bits 27 and 28.
pub fn stamp_format(t: Option<Timestamp>) -> u8
    ensures { result ≡ format_of t }
{
    match t {
        None => 0,
        Some(Timestamp::Implicit(_)) => 1,
        Some(Timestamp::Explicit(_, _)) => 2,
        Some(Timestamp::Binary(_)) => 3,
    }
}
