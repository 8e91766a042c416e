// The builder: fields to a header at the front of the output, or the refusal of the first check that fails.
//
// A header is its front, its addresses and its other elements (crate writer), end to end. The elements are written before the front, since
// the length field counts them, and the checksum last, since it sums all. The checks stand in page 01's order 17, 19, 20 (`header::limits`,
// module `range`), each a function that answers a `Check`. The awkward case is a refusal: everything is tested before the first octet is
// written. The next leg of a datagram writes headers of the same form without these checks (crate next_leg); module `measure` says how long one is.
#![tactic(auto)]

pub mod measure;
pub mod range;

ghost use Rattle.std.specs.Prelude.{◌≡◌, ◌+◌, ◌≤◌, ◌<◌, length};
ghost use Rattle.checks.specs.Order.{outcome};
ghost use Rattle.octets.specs.Octets.{pasted, fronted};
ghost use Rattle.header.specs.Limits.{longest_header, length_limit};
ghost use Rattle.header.specs.Build.{rest_octets, size_of, header_octets, build_refusals, built_output};

use checks::{Check, Refusal};
use header::{Fields, control_bits};

// The elements between control field and checksum.
fn put_rest(out: &mut [u8], place: usize, f: Fields) -> usize
    requires { place + 43 ≤ length out.old }
    ensures value { result ≡ place + length (rest_octets f) }
    ensures out_after { out.new ≡ pasted out.old place (rest_octets f) }
{
    let a = writer::addresses::put_addresses(out, place, f.addresses);
    let b = writer::elements::put_qos(out, a, f.qos);
    let c = writer::elements::put_octet(out, b, f.hops);
    let d = writer::elements::put_stamp(out, c, f.stamp);
    writer::elements::put_octet(out, d, f.expanded)
}

// Writes the header of a datagram with n octets of user data.
pub fn write_header(f: Fields, n: usize, out: &mut [u8]) -> usize
    requires longest_header_in_bounds { (longest_header ≤ length out.old) × (n < length_limit) }
    requires tpid_bound { (f.tpid < 16) × ((f.checksum < 2) × (f.intermediate < 2)) }
    ensures value { result ≡ size_of f }
    ensures out_after { out.new ≡ fronted (header_octets f n) out.old }
{
    let third = writer::front::third_octet(f);
    let second = writer::front::second_octet(f, third);
    let has_second = writer::front::presence(second);
    let has_third = writer::front::presence(third);
    let bits = control_bits::SECOND_OCTET * has_second
        + control_bits::DESTINATION
        + control_bits::CHECKSUM * f.checksum;
    let shared = f.tpid * 16 + bits;
    let place = put_rest(out, 3 + has_second as usize + has_third as usize, f);
    let size = place + 2 * f.checksum as usize;
    writer::front::put_front(out, size + n, shared, second, third);
    writer::elements::put_checksum(out, place, f.checksum);
    size
}

// Builds the header of a datagram with n octets of user data.
pub fn build_header(f: Fields, n: usize, out: &mut [u8]) -> Result<usize, Refusal>
    ensures value { result ≡ outcome (build_refusals f n (length out.old)) (size_of f) }
    ensures out_after { out.new ≡ built_output f n out.old }
{
    let Check::Passed = header::limits::check_room(out.len()) else {
        return Err(Refusal::NoOutputRoom);
    };
    let Check::Passed = crate::range::check_fields(f) else {
        return Err(Refusal::FieldOutOfRange);
    };
    let Check::Passed = header::limits::check_data(n) else {
        return Err(Refusal::TooMuchData);
    };
    Ok(write_header(f, n, out))
}
