// Numbers in octets, the most significant octet first.
//
// What a header holds is read and written as numbers of at most eight octets, each at some place of a lent string: an IPv6 address is two
// of them, several small fields share one, and what is absent is written as a number of no octets. An octet past the end is 0, so that a
// definition over octets needs no side condition; code asks for one past the end only where it may not be there, and reads numbers within.
// Writing says what the whole string is afterwards (`pasted`), so that pieces written one after the other join by one law.
#![tactic(auto)]

ghost use Rattle.std.specs.Prelude.{◌≡◌, length, ◌+◌, ◌*◌, ◌≤◌, ◌<◌, ◌^◌};
ghost use Rattle.octets.specs.Octets.{octet, number, octets, pasted, fronted};

// The octet at a place, 0 past the end.
pub fn octet_at(s: &[u8], place: usize) -> u8
    ensures { result ≡ octet s.now place }
{
    if place < s.len() { s[place] } else { 0 }
}

// The octet at a place that is known to be there.
pub fn octet_within(s: &[u8], place: usize) -> u8
    requires { place < length s.now }
    ensures { result ≡ octet s.now place }
{
    s[place]
}

// The number that some octets from a place on make.
pub fn number_at(s: &[u8], place: usize, count: usize) -> u64
    requires { (count ≤ 8) × (place + count ≤ length s.now) }
    ensures value { result ≡ number s.now place count }
    ensures upper_bound { result < 256 ^ count }
{
    let mut value: u64 = 0;
    for x in &s[place..place + count] {
        value = value * 256 + *x as u64;
    }
    value
}

// The number that two octets make, the greater first.
fn pair(high: u8, low: u8) -> u32
    ensures value { result ≡ high * 256 + low }
    ensures upper_bound { result < 65536 }
{
    high as u32 * 256 + low as u32
}

// The number that four octets make, read without a loop.
pub fn word_at(s: &[u8], place: usize) -> u32
    requires { place + 4 ≤ length s.now }
    ensures { result ≡ number s.now place 4 }
{
    pair(s[place + 2], s[place + 3]) + pair(s[place], s[place + 1]) * 65536
}

// The number that two words make, the greater first.
fn joined(high: u32, low: u32) -> u64
    ensures { result ≡ high * 4294967296 + low }
{
    high as u64 * 4294967296 + low as u64
}

// The number that eight octets make.
pub fn long_at(s: &[u8], place: usize) -> u64
    requires { place + 8 ≤ length s.now }
    ensures { result ≡ number s.now place 8 }
{
    joined(word_at(s, place), word_at(s, place + 4))
}

// Writes the last octets of a number from a place on; answers the place after them.
pub fn put_number(out: &mut [u8], place: usize, count: usize, value: u64) -> usize
    requires { place + count ≤ length out.old }
    ensures value { result ≡ place + count }
    ensures out_after { out.new ≡ pasted out.old place (octets count value) }
{
    let mut rest = value;
    for i in (0..count).rev() {
        out[place + i] = (rest % 256) as u8;
        rest /= 256;
    }
    place + count
}

// Writes octets over the front of a lent string. One by one, and not by `copy_from_slice`: that asks the board for a `memmove`.
pub fn put_front(s: &[u8], out: &mut [u8])
    requires { length s.now ≤ length out.old }
    ensures { out.new ≡ fronted s.now out.old }
{
    for i in 0..s.len() {
        out[i] = s[i];
    }
}
