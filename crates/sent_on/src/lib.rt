// A header that is kept when it goes on.
//
// It is the header that came, octet for octet, in the form it came in: only the hop count is one less and the checksum is
// redone, each where it is present. So nothing is built anew; the octets before the checksum are copied, the hop count is lessened
// among the copies, and the checksum is summed over what then stands there. The places of both were found when the header was read, and are
// handed on from there: nothing is looked up again.
//
// The awkward case is a hop count of 0. It stays 0: the relay refuses it before it comes here, and as a leaf by itself this function
// must not bring a used-up datagram back with 255 hops.
#![tactic(auto)]

ghost use Rattle.std.specs.Prelude.{◌≡◌, ◌-◌, ◌≤◌, ◌<◌, length};
ghost use Rattle.octets.specs.Octets.{fronted};
ghost use Rattle.header.specs.Limits.{longest_header};
ghost use Rattle.header.specs.Form.{places_of};
ghost use Rattle.header.specs.Onward.{lessened, header_sent_on, renewal_of};

use header::Renewal;

// A hop count less one; 0 stays 0.
fn one_less(hops: u8) -> u8
    ensures { result ≡ hops - 1 }
{
    if hops == 0 { 0 } else { hops - 1 }
}

// Lessens the hop count at a place by one, where it is on.
fn lessen(out: &mut [u8], place: usize, on: u8)
    requires { place < length out.old }
    ensures { out.new ≡ lessened on place out.old }
{
    if on == 1 {
        out[place] = one_less(out[place]);
    }
}

// Writes the header of a datagram as it goes on to the front of the output, by where it differs from the one that came; answers its length.
pub fn send_on(s: &[u8], out: &mut [u8], c: Renewal) -> usize
    requires { (longest_header ≤ length out.old) × (((places_of s.now).size ≤ length s.now) × (c ≡ renewal_of s.now)) }
    ensures value { result ≡ (places_of s.now).size }
    ensures out_after { out.new ≡ fronted (header_sent_on s.now) out.old }
{
    let checksum = c.checksum;
    octets::put_front(&s[..checksum], out);
    lessen(out, c.hops, c.counted);
    writer::elements::put_checksum(out, checksum, c.summed)
}
