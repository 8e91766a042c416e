// Each element behind the addresses, written at its place.
//
// An absent element writes nothing and answers its own place. The checksum is the last element and is computed over the octets that
// stand before it by then (003, 3.2.3.10). The awkward case is an odd place: the checksum then straddles two words, and is never summed
// where it stands.
ghost use Rattle.std.specs.Prelude.{◌≡◌, ◌+◌, ◌≤◌, ◌<◌, length, take};
ghost use Rattle.octets.specs.Octets.{pasted};
ghost use Rattle.header.specs.Build.{qos_octets, octet_octets, stamp_octets, checksum_octets};

use header::{Qos, Timestamp};

// Basic QOS: precedence in four bits, then routing requirements and program specific in two each.
pub fn put_qos(out: &mut [u8], place: usize, q: Option<Qos>) -> usize
    requires { place + 1 ≤ length out.old }
    ensures value { result ≡ place + length (qos_octets q) }
    ensures out_after { out.new ≡ pasted out.old place (qos_octets q) }
{
    match q {
        None => place,
        Some(q) => {
            let octet = q.precedence as u64 * 16 + q.routing as u64 * 4 + q.program as u64;
            octets::put_number(out, place, 1, octet)
        }
    }
}

// An element of one octet.
pub fn put_octet(out: &mut [u8], place: usize, o: Option<u8>) -> usize
    requires { place + 1 ≤ length out.old }
    ensures value { result ≡ place + length (octet_octets o) }
    ensures out_after { out.new ≡ pasted out.old place (octet_octets o) }
{
    match o {
        None => place,
        Some(v) => octets::put_number(out, place, 1, v as u64),
    }
}

// A timestamp; with an explicit P-field, as many octets of time as that gives.
pub fn put_stamp(out: &mut [u8], place: usize, t: Option<Timestamp>) -> usize
    requires { place + 8 ≤ length out.old }
    ensures value { result ≡ place + length (stamp_octets t) }
    ensures out_after { out.new ≡ pasted out.old place (stamp_octets t) }
{
    match t {
        None => place,
        Some(Timestamp::Implicit(time)) => octets::put_number(out, place, 3, time),
        Some(Timestamp::Explicit(p, time)) => {
            let next = octets::put_number(out, place, 1, p as u64);
            let time_size = header::pfield::time_size(p);
            octets::put_number(out, next, time_size, time)
        }
        Some(Timestamp::Binary(time)) => octets::put_number(out, place, 4, time),
    }
}

// Writes the checksum of the octets before a place at that place, where it is on; answers the place after it.
pub fn put_checksum(out: &mut [u8], place: usize, on: u8) -> usize
    requires { (place + 2 ≤ length out.old) × (place < 64) }
    ensures value { result ≡ place + length (checksum_octets on (take place out.old)) }
    ensures out_after { out.new ≡ pasted out.old place (checksum_octets on (take place out.old)) }
{
    if on == 1 {
        let sum = checksum::element(&out[..], place);
        return octets::put_number(out, place, 2, sum as u64);
    }
    place
}
