// The addresses of a header, written at their place.
//
// The destination comes first, then the source where there is one, and the row of table 3-5 gives both their width. The awkward case is
// IPv6: an address of sixteen octets is two machine words, the higher first.
ghost use Rattle.std.specs.Prelude.{◌≡◌, ◌+◌, ◌≤◌, length};
ghost use Rattle.octets.specs.Octets.{pasted};
ghost use Rattle.header.specs.Build.{six_octets, addresses_octets};

use header::{Addresses, Six};

// An address of sixteen octets.
fn put_six(out: &mut [u8], place: usize, a: Six) -> usize
    requires { place + 16 ≤ length out.old }
    ensures value { result ≡ place + length (six_octets a) }
    ensures out_after { out.new ≡ pasted out.old place (six_octets a) }
{
    let next = octets::put_number(out, place, 8, a.high);
    octets::put_number(out, next, 8, a.low)
}

// The addresses: the destination, then the source where there is one.
pub fn put_addresses(out: &mut [u8], place: usize, a: Addresses) -> usize
    requires { place + 32 ≤ length out.old }
    ensures value { result ≡ place + length (addresses_octets a) }
    ensures out_after { out.new ≡ pasted out.old place (addresses_octets a) }
{
    match a {
        Addresses::BasicPath(d) => octets::put_number(out, place, 1, d as u64),
        Addresses::ExtendedPath(p) => octets::put_number(out, place, 4, p.0 as u64),
        Addresses::BasicEndSystem(d, s) => {
            let next = octets::put_number(out, place, 1, d as u64);
            octets::put_number(out, next, 1, s as u64)
        }
        Addresses::ExtendedEndSystem(d, s) => {
            let next = octets::put_number(out, place, 4, d.0 as u64);
            octets::put_number(out, next, 4, s.0 as u64)
        }
        Addresses::Ipv6(d, s) => {
            let next = put_six(out, place, d);
            put_six(out, next, s)
        }
    }
}
