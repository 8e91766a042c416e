// The header of a copy on its next leg.
//
// A copy goes out as it came, hop count less one and checksum redone, unless its port asks for more. Where the port lies in another domain,
// addresses of one octet would name other systems there: end systems are written in four octets, filled in from the port that they came in by. Where
// the route taken asks for a checksum or a hop count and the header has none, it is added. Such a header is built anew, in the builder's form, and
// the datagram may be longer or shorter than the one that came.
//
// The awkward case is a header whose control field was not the shortest: rewritten it loses octets, so that a copy with an element more can still be
// shorter. Paths of one octet are never widened; the verdict keeps them in their domain.
#![tactic(auto)]

ghost use Rattle.std.specs.Prelude.{◌≡◌, true, false, not, ◌*◌, ◌≤◌, ◌<◌, eqb, length};
ghost use Rattle.octets.specs.Octets.{fronted};
ghost use Rattle.header.specs.Limits.{longest_header, length_limit};
ghost use Rattle.header.specs.Form.{places_of};
ghost use Rattle.header.specs.Read.{header_of};
ghost use Rattle.header.specs.Onward.{renewal_of};
ghost use Rattle.next_leg.specs.Leg.{
  asks_checksum,
  asks_hops,
  adds_hops,
  adds_checksum,
  adds,
  is_narrow,
  widened,
  widens,
  rewrites,
  hops_next,
  checksum_next,
  addresses_next,
  next_fields,
  widening,
  next_length,
  next_lengths,
  next_header,
  Sound,
  no_legs,
  rewritten_among,
  rewritten_octets,
  length_for,
  legs_of,
};

use address::Address;
use header::{Addresses, Fields, Header, Renewal};

// The hop count that is added, and the one of a reply.
pub const FIRST_HOPS: u8 = 64;

// What the header of a copy is made of, but for its port: the address of the port that it came in by, the capabilities of the route taken (0 without
// one), and the header that came.
#[derive(Clone, Copy)]
pub struct Leg {
    pub arrival: Address,
    pub code: u32,
    pub header: Header,
}

// The octets of the datagram as a port of the arrival port's domain gets it, and as another does.
#[derive(Clone, Copy)]
pub struct Lengths {
    pub near: usize,
    pub far: usize,
}

// The headers of the copies that ports took: what they are made of; of these ports those in another domain, and those whose header is rewritten; and the
// octets of that header, 0 where there is none.
#[derive(Clone, Copy)]
pub struct Legs {
    pub arrival: Address,
    pub code: u32,
    pub far: u32,
    pub rewritten: u32,
    pub octets: usize,
}

// Whether a route with these capabilities asks for a checksum.
fn asks_checksum(code: u32) -> bool
    ensures { result ≡ asks_checksum code }
{
    if code == 1 {
        return true;
    }
    code == 4
}

// Whether it asks for a hop count.
fn asks_hops(code: u32) -> bool
    ensures { result ≡ asks_hops code }
{
    if code == 2 {
        return true;
    }
    code == 4
}

// Whether a hop count is asked for that the header lacks.
fn adds_hops(code: u32, hops: Option<u8>) -> bool
    ensures { result ≡ adds_hops code hops }
{
    asks_hops(code) && hops.is_none()
}

// Whether a checksum is.
fn adds_checksum(code: u32, on: u8) -> bool
    ensures { result ≡ adds_checksum code on }
{
    if asks_checksum(code) {
        return on == 0;
    }
    false
}

// Whether either is.
fn adds_any(code: u32, f: Fields) -> bool
    ensures { result ≡ adds code f }
{
    adds_hops(code, f.hops) || adds_checksum(code, f.checksum)
}

// Whether the addresses are those of end systems, in one octet each.
fn is_narrow(a: Addresses) -> bool
    ensures { result ≡ is_narrow a }
{
    match a {
        Addresses::BasicPath(_) => false,
        Addresses::ExtendedPath(_) => false,
        Addresses::BasicEndSystem(_, _) => true,
        Addresses::ExtendedEndSystem(_, _) => false,
        Addresses::Ipv6(_, _) => false,
    }
}

// The addresses of end systems in four octets, by the port that they came in by.
fn widen(arrival: Address, a: Addresses) -> Addresses
    ensures { result ≡ widened arrival.0 a }
{
    match a {
        Addresses::BasicPath(z) => Addresses::BasicPath(z),
        Addresses::ExtendedPath(p) => Addresses::ExtendedPath(p),
        Addresses::BasicEndSystem(d, s) => Addresses::ExtendedEndSystem(
            Address(meaning::filled_in(arrival, d)),
            Address(meaning::filled_in(arrival, s)),
        ),
        Addresses::ExtendedEndSystem(d, s) => Addresses::ExtendedEndSystem(d, s),
        Addresses::Ipv6(d, s) => Addresses::Ipv6(d, s),
    }
}

// Whether the addresses are widened for a port; far says that it lies in another domain.
fn widens_for(far: bool, a: Addresses) -> bool
    ensures { result ≡ widens far a }
{
    if far {
        return is_narrow(a);
    }
    false
}

// Whether the copy for a port is rewritten.
fn is_rewritten(far: bool, code: u32, f: Fields) -> bool
    ensures { result ≡ rewrites far code f }
{
    let addresses = f.addresses;
    if widens_for(far, addresses) {
        return true;
    }
    adds_any(code, f)
}

// The addresses for a port: widened where it lies in another domain.
pub fn addresses_next(far: bool, arrival: Address, a: Addresses) -> Addresses
    ensures { result ≡ addresses_next far arrival.0 a }
{
    if far {
        return widen(arrival, a);
    }
    a
}

// A hop count one less, which the verdict has left at 2 or more; or the first one, where it is asked for.
fn hops_next(code: u32, hops: Option<u8>) -> Option<u8>
    ensures { result ≡ hops_next code hops }
{
    match hops {
        None if asks_hops(code) => Some(FIRST_HOPS),
        None => None,
        Some(count) => Some(count.saturating_sub(1)),
    }
}

// Whether the header has a checksum then: where it had one, or the route asks for it.
pub fn checksum_next(code: u32, on: u8) -> u8
    ensures { result ≡ checksum_next code on }
{
    if asks_checksum(code) {
        return 1;
    }
    on
}

// The fields that a rewritten header is built of.
fn fields_next(far: bool, arrival: Address, code: u32, f: Fields) -> Fields
    ensures { result ≡ next_fields far arrival.0 code f }
{
    Fields {
        tpid: f.tpid,
        addresses: addresses_next(far, arrival, f.addresses),
        qos: f.qos,
        hops: hops_next(code, f.hops),
        stamp: f.stamp,
        expanded: f.expanded,
        checksum: checksum_next(code, f.checksum),
        intermediate: f.intermediate,
    }
}

// What the addresses grow by where they are widened: each of the two from one octet to four.
fn widening_of(a: Addresses) -> usize
    ensures { result ≡ widening a }
{
    match a {
        Addresses::BasicPath(_) => 0,
        Addresses::ExtendedPath(_) => 0,
        Addresses::BasicEndSystem(_, _) => 6,
        Addresses::ExtendedEndSystem(_, _) => 0,
        Addresses::Ipv6(_, _) => 0,
    }
}

// The octets of the datagram as a port of another domain gets it.
fn length_far(arrival: Address, code: u32, h: Header) -> usize
    requires { Sound h }
    ensures { (result ≡ next_length true arrival.0 code h) × (result < 2 * length_limit) }
{
    let f = h.fields;
    if is_rewritten(true, code, f) {
        let size = builder::measure::header_size(fields_next(true, arrival, code, f));
        return size + (h.length - h.size);
    }
    h.length
}

// Both lengths. A header is measured once at most, and not at all where no port's is rewritten: the two forms differ by their addresses alone.
pub fn lengths_next(l: Leg) -> Lengths
    requires { Sound l.header }
    ensures { (result ≡ next_lengths l) × ((result.near < 2 * length_limit) × (result.far < 2 * length_limit)) }
{
    let h = l.header;
    let f = h.fields;
    let addresses = f.addresses;
    let arrival = l.arrival;
    let far = length_far(arrival, l.code, h);
    if adds_any(l.code, f) {
        return Lengths {
            near: far - widening_of(addresses),
            far,
        };
    }
    Lengths {
        near: h.length,
        far,
    }
}

// No port took a copy.
pub fn no_legs() -> Legs
    ensures { result ≡ no_legs }
{
    Legs {
        arrival: Address(0),
        code: 0,
        far: 0,
        rewritten: 0,
        octets: 0,
    }
}

// Of the ports that took a copy, those whose header is rewritten: all where an element is added, and those in another domain where addresses are widened.
fn rewritten_among(took: u32, far: u32, code: u32, f: Fields) -> u32
    ensures { result ≡ rewritten_among took far code f }
{
    let addresses = f.addresses;
    if adds_any(code, f) {
        return took;
    }
    if is_narrow(addresses) {
        return far;
    }
    0
}

// The length where some of the ports lie in another domain, and where none does.
fn length_for(far: u32, q: Lengths) -> usize
    ensures { result ≡ length_for far q }
{
    if far == 0 {
        return q.near;
    }
    q.far
}

// The octets of the rewritten header: a datagram has one at most, since only a route asks for elements, and a route has one port. It was measured
// with the lengths, and is what they have besides the data.
fn rewritten_octets(rewritten: u32, far: u32, l: Leg, q: Lengths) -> usize
    requires { Sound l.header
        × ((q ≡ next_lengths l) × (eqb rewritten 0 ≡ false → rewrites (not (eqb far 0)) l.code l.header.fields ≡ true)) }
    ensures { result ≡ rewritten_octets rewritten far l }
{
    if rewritten == 0 {
        return 0;
    }
    let h = l.header;
    length_for(far, q) - (h.length - h.size)
}

// The headers of the copies that these ports took, where those of the domain and both lengths are known.
pub fn legs_of(took: u32, domain: u32, l: Leg, q: Lengths) -> Legs
    requires { Sound l.header × (q ≡ next_lengths l) }
    ensures { result ≡ legs_of took domain l }
{
    if took == 0 {
        return no_legs();
    }
    let far = verdict::except(took, domain);
    let h = l.header;
    let f = h.fields;
    let arrival = l.arrival;
    let rewritten = rewritten_among(took, far, l.code, f);
    Legs {
        arrival,
        code: l.code,
        far,
        rewritten,
        octets: rewritten_octets(rewritten, far, l, q),
    }
}

// Writes the header for a port to the front of the output; answers its length.
pub fn write_next(
    far: bool,
    arrival: Address,
    code: u32,
    h: Header,
    renewal: Renewal,
    octets: &[u8],
    out: &mut [u8],
) -> usize
    requires { Sound h × ((longest_header ≤ length out.old) × ((h ≡ header_of octets.now) × (((places_of octets.now).size ≤ length octets.now) × (renewal ≡ renewal_of octets.now)))) }
    ensures value { result ≡ length (next_header far arrival.0 code octets.now) }
    ensures out_after { out.new ≡ fronted (next_header far arrival.0 code octets.now) out.old }
{
    let f = h.fields;
    if is_rewritten(far, code, f) {
        return builder::write_header(fields_next(far, arrival, code, f), h.length - h.size, out);
    }
    sent_on::send_on(octets, out, renewal)
}
