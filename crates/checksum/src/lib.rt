// The checksum of the header: RFC 1071, with the readings of 003, 3.2.3.10.
//
// The octets are taken as 16-bit words, the greater octet first, and added with the carry out of the word brought round to its foot. Two
// words at a time are one number of 32 bits, and a carry out of 32 bits comes round to the foot as well: 2^32 and 2^16 are both 1 more than
// a multiple of 65535, so what is left modulo 65535 is that of the words added one by one, and it is 0 only where each of them is. So four
// octets are added at once, octets of any length fit, and three folds at the end leave 16 bits (proofs/TwoAtOnce.antt).
//
// The awkward case is an odd number of octets. The last one then stands as the greater octet of a word of its own,
// and a checksum element behind it straddles two words. As zero the element adds nothing wherever it stands
// (`blank_sum` in proofs), so it is never summed in place: the octets before it are summed.
#![tactic(auto)]

ghost use Rattle.std.specs.Prelude.{◌≡◌, ◌+◌, ◌*◌, ◌≤◌, ◌<◌, length};
ghost use Rattle.octets.specs.Octets.{octet};
ghost use Rattle.checksum.specs.Sum.{around, around32, ones_sum, checksum_of, element_of};

// Two words added to a sum, the carry out of 32 bits brought round.
fn add_words(sum: u64, words: u32) -> u64
    requires { sum < 8589934592 }
    ensures value { result ≡ around32 (sum + words) }
    ensures upper_bound { result < 8589934592 }
{
    let t = sum + words as u64;
    t % 4294967296 + t / 4294967296
}

fn wide(octet: u8) -> u32
    ensures { result ≡ octet }
{
    octet as u32
}

// The two words of up to three octets, zeros behind them.
fn last_words(s: &[u8]) -> u32
    ensures { result ≡ octet s.now 0 * 16777216 + octet s.now 1 * 65536 + octet s.now 2 * 256 }
{
    wide(octets::octet_at(s, 0)) * 16777216
        + wide(octets::octet_at(s, 1)) * 65536
        + wide(octets::octet_at(s, 2)) * 256
}

// What is above 16 bits of a sum, brought round.
fn fold(sum: u64) -> u64
    ensures { result ≡ around sum }
{
    sum % 65536 + sum / 65536
}

// A sum brought round to 16 bits.
fn folded(sum: u64) -> u32
    requires { sum < 8589934592 }
    ensures value { result ≡ around (around (around sum)) }
    ensures upper_bound { result < 65536 }
{
    fold(fold(fold(sum))) as u32
}

// The ones' complement sum of the words of s.
pub fn ones_sum(s: &[u8]) -> u32
    ensures value { result ≡ ones_sum s.now }
    ensures upper_bound { result < 65536 }
{
    let (fours, rest) = s.as_chunks::<4>();
    let mut sum: u64 = 0;
    for i in 0..fours.len() {
        sum = add_words(sum, octets::word_at(&fours[i], 0));
    }
    folded(add_words(sum, last_words(rest)))
}

// The checksum of s: the complement of its sum.
pub fn checksum(s: &[u8]) -> u16
    ensures { result ≡ checksum_of s.now }
{
    (65535 - ones_sum(s)) as u16
}

// What a header's checksum element at place `at` should be.
pub fn element(s: &[u8], at: usize) -> u16
    requires { at ≤ length s.now }
    ensures { result ≡ element_of s.now at }
{
    checksum(&s[..at])
}
