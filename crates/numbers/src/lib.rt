// The fields of a header as numbers.
//
// C has neither enums with data nor kinds of address, so the fields travel as one struct of numbers. `hj_fields` in the C header has the
// same numbers in the same order and of the same widths, under other names: a `Wide` is two members there, and the flag of an element begins with `has_`.
// Outward nothing can go wrong: what is absent is 0. On the way back much can: module `validity` tests whether numbers stand for some
// fields, and module `fields_from` makes the fields. The awkward number is one of an absent element: it is 0 on both ways, so that fields
// have one set of numbers only.
#![tactic(auto)]

pub mod fields_from;
pub mod in_words;
pub mod validity;

ghost use Rattle.std.specs.Prelude.{◌≡◌};
ghost use Rattle.numbers.specs.Numbers.{
  destination_number,
  source_number,
  precedence_number,
  routing_number,
  program_number,
  octet_number,
  time_number,
  pfield_number,
  numbers_of,
};

use header::{Addresses, Fields, Qos, Timestamp};

// A number of up to sixteen octets.
#[repr(C)]
#[derive(Clone, Copy)]
pub struct Wide {
    pub high: u64,
    pub low: u64,
}

// The fields of a header. `sourced`, `qualified`, `counted` and `expands` are the flags of source, basic QOS, hop count and
// expanded QOS: numbers beside their values and no options, since C has the struct.
#[repr(C)]
#[derive(Clone, Copy)]
pub struct Numbers {
    pub destination: Wide,
    pub source: Wide,
    pub time: u64,
    pub tpid: u32,
    pub sourced: u32,
    pub extended: u32,
    pub ipv6: u32,
    pub qualified: u32,
    pub precedence: u32,
    pub routing: u32,
    pub program: u32,
    pub counted: u32,
    pub hops: u32,
    pub format: u32,
    pub pfield: u32,
    pub expands: u32,
    pub expanded: u32,
    pub checksum: u32,
    pub intermediate: u32,
}

fn destination_number(a: Addresses) -> Wide
    ensures { result ≡ destination_number a }
{
    match a {
        Addresses::BasicPath(d) => narrow(d as u64),
        Addresses::ExtendedPath(p) => narrow(p.0 as u64),
        Addresses::BasicEndSystem(d, _) => narrow(d as u64),
        Addresses::ExtendedEndSystem(d, _) => narrow(d.0 as u64),
        Addresses::Ipv6(d, _) => Wide {
            high: d.high,
            low: d.low,
        },
    }
}

fn source_number(a: Addresses) -> Wide
    ensures { result ≡ source_number a }
{
    match a {
        Addresses::BasicPath(_) => narrow(0),
        Addresses::ExtendedPath(_) => narrow(0),
        Addresses::BasicEndSystem(_, s) => narrow(s as u64),
        Addresses::ExtendedEndSystem(_, s) => narrow(s.0 as u64),
        Addresses::Ipv6(_, s) => Wide {
            high: s.high,
            low: s.low,
        },
    }
}

fn narrow(v: u64) -> Wide
    ensures { result ≡ record { high = 0; low = v } }
{
    Wide { high: 0, low: v }
}

fn precedence_number(q: Option<Qos>) -> u32
    ensures { result ≡ precedence_number q }
{
    match q {
        None => 0,
        Some(q) => q.precedence as u32,
    }
}

fn routing_number(q: Option<Qos>) -> u32
    ensures { result ≡ routing_number q }
{
    match q {
        None => 0,
        Some(q) => q.routing as u32,
    }
}

fn program_number(q: Option<Qos>) -> u32
    ensures { result ≡ program_number q }
{
    match q {
        None => 0,
        Some(q) => q.program as u32,
    }
}

fn octet_number(o: Option<u8>) -> u32
    ensures { result ≡ octet_number o }
{
    o.unwrap_or(0) as u32
}

fn time_number(t: Option<Timestamp>) -> u64
    ensures { result ≡ time_number t }
{
    match t {
        None => 0,
        Some(Timestamp::Implicit(time)) => time,
        Some(Timestamp::Explicit(_, time)) => time,
        Some(Timestamp::Binary(time)) => time,
    }
}

fn pfield_number(t: Option<Timestamp>) -> u32
    ensures { result ≡ pfield_number t }
{
    match t {
        Some(Timestamp::Explicit(p, _)) => p as u32,
        _ => 0,
    }
}

// The numbers of a header's fields, 0 for what is absent.
impl From<Fields> for Numbers {
    ghost from_gives = { λ f n. n ≡ numbers_of f };

    fn from(f: Fields) -> Numbers {
        Numbers {
            destination: destination_number(f.addresses),
            source: source_number(f.addresses),
            time: time_number(f.stamp),
            tpid: f.tpid as u32,
            sourced: header::flags::source_flag(f.addresses) as u32,
            extended: header::flags::extended_flag(f.addresses) as u32,
            ipv6: header::flags::ipv6_flag(f.addresses) as u32,
            qualified: header::flags::qos_flag(f.qos) as u32,
            precedence: precedence_number(f.qos),
            routing: routing_number(f.qos),
            program: program_number(f.qos),
            counted: header::flags::octet_flag(f.hops) as u32,
            hops: octet_number(f.hops),
            format: header::flags::stamp_format(f.stamp) as u32,
            pfield: pfield_number(f.stamp),
            expands: header::flags::octet_flag(f.expanded) as u32,
            expanded: octet_number(f.expanded),
            checksum: f.checksum as u32,
            intermediate: f.intermediate as u32,
        }
    }
}
