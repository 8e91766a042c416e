// The fields that numbers from C stand for.
//
// Each field is made of the lower bits of its numbers, which flags choose between, so that every struct of numbers gives some fields
// and no function here can refuse; whether they are the fields that were meant is module `validity`'s to test before. The awkward case is
// a number too wide for its field: it is cut, and not looked at, since `validity` lets none through.
ghost use Rattle.std.specs.Prelude.{◌≡◌};
ghost use Rattle.numbers.specs.Fields.{addresses_from, qos_from, octet_from, stamp_from, fields_from};

use crate::{Numbers, Wide};
use address::{Address, PathAddress};
use header::{Addresses, Fields, Qos, Six, Timestamp};

fn six_from(w: Wide) -> Six
    ensures { result ≡ record { high = w.high; low = w.low } }
{
    Six {
        high: w.high,
        low: w.low,
    }
}

fn addresses_from(n: Numbers) -> Addresses
    ensures { result ≡ addresses_from n }
{
    let d = n.destination;
    let s = n.source;
    if n.ipv6 == 1 {
        return Addresses::Ipv6(six_from(d), six_from(s));
    }
    if n.extended == 1 {
        let destination = (d.low % 4294967296) as u32;
        if n.sourced == 1 {
            let source = (s.low % 4294967296) as u32;
            return Addresses::ExtendedEndSystem(Address(destination), Address(source));
        }
        return Addresses::ExtendedPath(PathAddress(destination));
    }
    if n.sourced == 1 {
        return Addresses::BasicEndSystem((d.low % 256) as u8, (s.low % 256) as u8);
    }
    Addresses::BasicPath((d.low % 256) as u8)
}

fn qos_from(n: Numbers) -> Option<Qos>
    ensures { result ≡ qos_from n }
{
    if n.qualified == 0 {
        return None;
    }
    Some(Qos {
        precedence: (n.precedence % 256) as u8,
        routing: (n.routing % 256) as u8,
        program: (n.program % 256) as u8,
    })
}

fn octet_from(on: u32, v: u32) -> Option<u8>
    ensures { result ≡ octet_from on v }
{
    if on == 0 {
        return None;
    }
    Some((v % 256) as u8)
}

fn stamp_from(n: Numbers) -> Option<Timestamp>
    ensures { result ≡ stamp_from n }
{
    match n.format {
        0 => None,
        1 => Some(Timestamp::Implicit(n.time)),
        2 => Some(Timestamp::Explicit((n.pfield % 256) as u8, n.time)),
        _ => Some(Timestamp::Binary(n.time)),
    }
}

// The fields that numbers stand for, by the lower bits of each number where it is too wide.
impl From<Numbers> for Fields {
    ghost from_gives = { λ n f. f ≡ fields_from n };

    fn from(n: Numbers) -> Fields {
        Fields {
            tpid: (n.tpid % 256) as u8,
            addresses: addresses_from(n),
            qos: qos_from(n),
            hops: octet_from(n.counted, n.hops),
            stamp: stamp_from(n),
            expanded: octet_from(n.expands, n.expanded),
            checksum: (n.checksum % 256) as u8,
            intermediate: (n.intermediate % 256) as u8,
        }
    }
}
