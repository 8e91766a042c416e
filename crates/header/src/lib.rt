// What a header is.
//
// The kinds that the reader and the builder share, with every definition of how a header lies in octets (specs/) and the laws
// between the two directions (proofs/). What code stands here is what both directions ask: the bits of the control field
// (`control_bits`), what they are for given elements (`flags`), the limits (`limits`) and the time behind a P-field (`pfield`). None of
// it reads or writes an octet, so that a change of the reader or of the builder does not touch a law.
//
// Two lengths are told apart by their names: `length` is the datagram's, which the length field says, and `size` is the header's own.
//
// An element that is absent is `None`, so that a number for it cannot be written down; the five address types of
// table 3-5 are the five variants of `Addresses`, so that neither can a combination that table 3-6 forbids. What is left for refusal
// 19 are numbers that are too large for their element. The awkward element is the timestamp with an explicit P-field: its length
// stands in its own first octet.
#![tactic(auto)]

pub mod control_bits;
pub mod flags;
pub mod limits;
pub mod pfield;

use address::{Address, PathAddress};

// An IPv6 address: its first eight octets and its last eight.
#[derive(Clone, Copy)]
pub struct Six {
    pub high: u64,
    pub low: u64,
}

// The address types of table 3-5, a destination first and then a source where there is one.
#[derive(Clone, Copy)]
pub enum Addresses {
    BasicPath(u8),
    ExtendedPath(PathAddress),
    BasicEndSystem(u8, u8),
    ExtendedEndSystem(Address, Address),
    Ipv6(Six, Six),
}

// Basic QOS: precedence, routing requirements and program specific.
#[derive(Clone, Copy)]
pub struct Qos {
    pub precedence: u8,
    pub routing: u8,
    pub program: u8,
}

// A timestamp: three octets of time; a P-field and the octets of time that it gives; four octets of time.
#[derive(Clone, Copy)]
pub enum Timestamp {
    Implicit(u64),
    Explicit(u8, u64),
    Binary(u64),
}

// What the elements of a header say; `None` is an element that is not there. `checksum` and `intermediate` are flags, 0 or 1.
#[derive(Clone, Copy)]
pub struct Fields {
    pub tpid: u8,
    pub addresses: Addresses,
    pub qos: Option<Qos>,
    pub hops: Option<u8>,
    pub stamp: Option<Timestamp>,
    pub expanded: Option<u8>,
    pub checksum: u8,
    pub intermediate: u8,
}

// A header as it was read: its fields, the length field and the header's own length in octets.
#[derive(Clone, Copy)]
pub struct Header {
    pub fields: Fields,
    pub length: usize,
    pub size: usize,
}

// The control field: bits 20 to 23, 24 to 31 and 32 to 39 as numbers, 0 where absent, and the place after it.
#[derive(Clone, Copy)]
pub struct Control {
    pub first: u8,
    pub second: u8,
    pub third: u8,
    pub end: usize,
}

// The place at which each element after the addresses stands, or would stand, and the octets of the whole header.
#[derive(Clone, Copy)]
pub struct Layout {
    pub qos: usize,
    pub hops: usize,
    pub stamp: usize,
    pub expanded: usize,
    pub checksum: usize,
    pub size: usize,
}

// Where a header that is sent on differs from the one that came: the place of the hop count and whether it is there, the place of the
// checksum and whether it is there. `counted` and `summed` are flags, 0 or 1.
#[derive(Clone, Copy)]
pub struct Renewal {
    pub hops: usize,
    pub counted: u8,
    pub checksum: usize,
    pub summed: u8,
}
