// The reader: octets to a header, or the refusal of the first check that fails.
//
// The checks stand in page 01's order 1, 2, 1, 4, 3, 5, each a function that answers a `Check`, and each stage hands a refusal on by `?`. Places are found before it is known
// that the octets reach that far: an octet past the end reads as 0, and check 3 refuses every header whose own length passes the
// length field, or whose length field passes the octets lent, before a field is made of it. The awkward case is a P-field that lies
// past the end: it reads as 0, which only makes the header too long by less, and the answer is 3 all the same.
#![tactic(auto)]

pub mod fields;

ghost use Rattle.std.specs.Prelude.{◌≡◌, ◌≤◌, length, ltb, Ok};
ghost use Rattle.checks.specs.Order.{check_of, outcome};
ghost use Rattle.header.specs.Form.{layout_of, has_hops, has_checksum};
ghost use Rattle.header.specs.Onward.{renewal_of};
ghost use Rattle.header.specs.Read.{other_version, cut, misfit, wrong_checksum, read_refusals, header_of};
ghost use Rattle.reader.specs.Stages.{front_of};

use checks::{Check, Refusal};
use header::{Control, Header, Layout, Renewal, control_bits};

// At least three octets are lent.
fn check_start(s: &[u8]) -> Check
    ensures { result ≡ check_of (ltb (length s.now) 3) }
{
    if s.len() < 3 {
        return Check::Failed;
    }
    Check::Passed
}

// The version is 001.
fn check_version(s: &[u8]) -> Check
    ensures { result ≡ check_of (other_version s.now) }
{
    if octets::octet_at(s, 0) / 32 != 1 {
        return Check::Failed;
    }
    Check::Passed
}

// The octets reach the end of the control field.
fn check_whole(s: &[u8], k: Control) -> Check
    ensures { result ≡ check_of (cut s.now k) }
{
    if s.len() < k.end {
        return Check::Failed;
    }
    Check::Passed
}

// The control field that the octets begin with, checks 1, 2, 1 and 4. A stage of its own: the compiler takes what stands behind a long row
// of tests for rare, and would then call the fields' readers one by one.
fn front_of(s: &[u8]) -> Result<Control, Refusal>
    ensures { result ≡ front_of s.now }
{
    let Check::Passed = check_start(s) else {
        return Err(Refusal::TooShort);
    };
    let Check::Passed = check_version(s) else {
        return Err(Refusal::OtherVersion);
    };
    let k = layout::control_of(s);
    let Check::Passed = check_whole(s, k) else {
        return Err(Refusal::TooShort);
    };
    let Check::Passed = layout::check_form(k) else {
        return Err(Refusal::WrongForm);
    };
    Ok(k)
}

// The length field is within the octets lent and not under the header's own length.
fn check_length(s: &[u8], l: Layout) -> Check
    ensures { result ≡ check_of (misfit s.now l) }
{
    let length = crate::fields::length_at(s);
    if s.len() < length {
        return Check::Failed;
    }
    if length < l.size {
        return Check::Failed;
    }
    Check::Passed
}

// The checksum element, where there is one, is what it should be.
fn check_sum(s: &[u8], k: Control, l: Layout) -> Check
    requires { (l ≡ layout_of s.now k) × (l.size ≤ length s.now) }
    ensures { result ≡ check_of (wrong_checksum s.now k l) }
{
    if control_bits::has_checksum(k) != 1 {
        return Check::Passed;
    }
    let carried = octets::number_at(s, l.checksum, 2);
    let due = checksum::element(s, l.checksum) as u64;
    if carried != due {
        return Check::Failed;
    }
    Check::Passed
}

// Where a header differs when it is sent on.
fn renewal_of(k: Control, l: Layout) -> Renewal
    ensures { result ≡ record { hops = l.hops; counted = has_hops k; checksum = l.checksum; summed = has_checksum k } }
{
    Renewal {
        hops: l.hops,
        counted: control_bits::has_hops(k),
        checksum: l.checksum,
        summed: control_bits::has_checksum(k),
    }
}

// Finds the header behind its control field, checks 3 and 5.
fn find_behind(s: &[u8], k: Control) -> Result<(Header, Renewal), Refusal>
    requires { front_of s.now ≡ Ok k }
    ensures { result ≡ outcome (read_refusals s.now) (header_of s.now, renewal_of s.now) }
{
    let l = layout::layout_of(s, k);
    let Check::Passed = check_length(s, l) else {
        return Err(Refusal::WrongLength);
    };
    let Check::Passed = check_sum(s, k, l) else {
        return Err(Refusal::WrongChecksum);
    };
    let fields = crate::fields::fields_at(s, k, l);
    let header = Header {
        fields,
        length: crate::fields::length_at(s),
        size: l.size,
    };
    Ok((header, renewal_of(k, l)))
}

// Finds the header that the octets begin with, and where it differs when it is sent on.
pub fn find_header(s: &[u8]) -> Result<(Header, Renewal), Refusal>
    ensures { result ≡ outcome (read_refusals s.now) (header_of s.now, renewal_of s.now) }
{
    match front_of(s) {
        Ok(k) => find_behind(s, k),
        Err(early) => Err(early),
    }
}

// Reads the header that the octets begin with.
pub fn read_header(s: &[u8]) -> Result<Header, Refusal>
    ensures { result ≡ outcome (read_refusals s.now) (header_of s.now) }
{
    // Matched, and not handed on by `?`: two wrong programs change what is answered here.
    match find_header(s) {
        Ok((h, _)) => Ok(h),
        Err(refusal) => Err(refusal),
    }
}
