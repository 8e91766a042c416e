// The bits of the control field, each by its name and once.
//
// The standard numbers the bits of a header from its most significant on (003, table 3-4). A `Control` holds bits 20 to 23, 24 to 31 and
// 32 to 39 as three numbers, so each bit has a weight, and is the last binary digit of a quotient by it. The reader takes the octets apart
// by these functions, and the builder puts them together by the same weights. The awkward bits are those that say that another octet
// follows: the first two are asked before there is a `Control`, of the number that has them, and the third may never be 1.
ghost use Rattle.std.specs.Prelude.{◌≡◌};
ghost use Rattle.header.specs.Form.{
  second_follows,
  reserved21,
  has_destination,
  has_checksum,
  third_follows,
  has_source,
  has_hops,
  stamp_format,
  reserved29,
  has_qos,
  is_extended,
  fourth_follows,
  is_ipv6,
  has_expanded,
  is_intermediate,
  unassigned,
};

use crate::Control;

// Bits 20 to 23.
pub const SECOND_OCTET: u8 = 8;

const RESERVED_BIT_21: u8 = 4;

pub const DESTINATION: u8 = 2;

pub const CHECKSUM: u8 = 1;

// Bits 24 to 31. The timestamp's format has two, and weighs what the lower of them does.
pub const THIRD_OCTET: u8 = 128;

pub const SOURCE: u8 = 64;

pub const HOPS: u8 = 32;

pub const STAMP: u8 = 8;

const RESERVED_BIT_29: u8 = 4;

pub const QOS: u8 = 2;

pub const EXTENDED: u8 = 1;

// Bits 32 to 35; 36 to 39 are not assigned, and are what is below them.
const FOURTH_OCTET: u8 = 128;

pub const IPV6: u8 = 64;

pub const EXPANDED: u8 = 32;

pub const INTERMEDIATE: u8 = 16;

// Whether a second control octet follows bits 20 to 23.
pub fn second_follows(first: u8) -> u8
    ensures { result ≡ second_follows first }
{
    first / SECOND_OCTET % 2
}

pub fn reserved_21(k: Control) -> u8
    ensures { result ≡ reserved21 k }
{
    k.first / RESERVED_BIT_21 % 2
}

pub fn has_destination(k: Control) -> u8
    ensures { result ≡ has_destination k }
{
    k.first / DESTINATION % 2
}

pub fn has_checksum(k: Control) -> u8
    ensures { result ≡ has_checksum k }
{
    k.first / CHECKSUM % 2
}

// Whether a third control octet follows bits 24 to 31.
pub fn third_follows(second: u8) -> u8
    ensures { result ≡ third_follows second }
{
    second / THIRD_OCTET % 2
}

pub fn has_source(k: Control) -> u8
    ensures { result ≡ has_source k }
{
    k.second / SOURCE % 2
}

pub fn has_hops(k: Control) -> u8
    ensures { result ≡ has_hops k }
{
    k.second / HOPS % 2
}

// Bits 27 and 28 as one number.
pub fn format_bits(k: Control) -> u8
    ensures { result ≡ stamp_format k }
{
    k.second / STAMP % 4
}

pub fn reserved_29(k: Control) -> u8
    ensures { result ≡ reserved29 k }
{
    k.second / RESERVED_BIT_29 % 2
}

pub fn has_qos(k: Control) -> u8
    ensures { result ≡ has_qos k }
{
    k.second / QOS % 2
}

pub fn is_extended(k: Control) -> u8
    ensures { result ≡ is_extended k }
{
    k.second / EXTENDED % 2
}

// Whether a fourth control octet is asked for.
pub fn fourth_follows(k: Control) -> u8
    ensures { result ≡ fourth_follows k }
{
    k.third / FOURTH_OCTET % 2
}

pub fn is_ipv6(k: Control) -> u8
    ensures { result ≡ is_ipv6 k }
{
    k.third / IPV6 % 2
}

pub fn has_expanded(k: Control) -> u8
    ensures { result ≡ has_expanded k }
{
    k.third / EXPANDED % 2
}

pub fn is_intermediate(k: Control) -> u8
    ensures { result ≡ is_intermediate k }
{
    k.third / INTERMEDIATE % 2
}

// Bits 36 to 39 as one number.
pub fn unassigned_bits(k: Control) -> u8
    ensures { result ≡ unassigned k }
{
    k.third % INTERMEDIATE
}
