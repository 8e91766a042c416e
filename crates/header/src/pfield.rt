// The P-field of a timestamp, which says how long the time behind it is.
//
// Bits 4 and 5 of the octet are one less than the whole octets of time, bits 6 and 7 the octets of fractions (003, 3.2.3.8.3); its other
// bits are carried and not looked at. Whoever reads, writes, measures or bounds such a time asks here. The awkward case is a P-field of 0:
// there is an octet of time all the same.
ghost use Rattle.std.specs.Prelude.{◌≡◌};
ghost use Rattle.header.specs.Form.{time_size};

// The octets of time behind a P-field, 1 to 7.
pub fn time_size(p: u8) -> usize
    ensures { result ≡ time_size p }
{
    1 + (p / 4 % 4) as usize + (p % 4) as usize
}
