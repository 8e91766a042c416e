// The list of routes as a mission sees it: what refuses a record, and what one record adds to a scan of the list.
//
// Both missions are lent one list, which may hold anything. A record that the rules refuse counts as empty, and of two records that hold the same
// entry the lower place holds. So a scan carries, beside what it found, the set of the mask lengths that it saw: all records that an address
// matches have their prefixes from it, and two of them with as many ones hold the same entry. A record that is not up is seen all the same, and
// hides a later one of its entry.
// The scan is a small struct and comes back as it is where a record does not match, so that such a record costs nine instructions. The
// awkward case is a mask that is not ones and then zeros: it may match, but it is refused, and so seen by no count.
#![tactic(auto)]

ghost use Rattle.std.specs.Prelude.{◌≡◌};
ghost use Rattle.std.specs.Option.{option_map_or};
ghost use Rattle.checks.specs.Order.{outcome};
ghost use Rattle.listing.specs.Listed.{refusals_of};
ghost use Rattle.listing.specs.Scan.{
  begun_scan,
  first_place,
  is_wanted,
  taken_of,
  judged_of,
  step_of,
};

use address::{Address, Mask};
use checks::{Check, Refusal};
use routes::Record;

// What may be sought: nothing, the longest match that is up, or the record with this very entry.
#[derive(Clone, Copy, PartialEq, Eq)]
pub enum Sought {
    Nothing,
    Best,
    Same,
}

// A question to the list: the refusal that stands before the search, 0 for none; what is sought; the address that records are to match, the mask of
// the same entry, the mission, and the set of its ports.
#[derive(Clone, Copy)]
pub struct Query {
    pub refusal: u32,
    pub sought: Sought,
    pub address: u32,
    pub mask: u32,
    pub mission: u32,
    pub own: u32,
}

// A record that is found: its place, mask, port and capabilities.
#[derive(Clone, Copy)]
pub struct Match {
    pub place: usize,
    pub mask: u32,
    pub port: u32,
    pub capabilities: u32,
}

// What a scan has found, if anything, and the set of the counts of ones of the masks it saw.
#[derive(Clone, Copy)]
pub struct Scan {
    pub found: Option<Match>,
    pub seen: u64,
}

// A scan that has looked at no record.
pub fn begun() -> Scan
    ensures { result ≡ begun_scan }
{
    Scan {
        found: None,
        seen: 0,
    }
}

// The place that a scan found; the first where it found nothing.
pub fn place_of(s: Scan) -> usize
    ensures { result ≡ option_map_or (λ (found : Match). found.place) s.found 0 }
{
    match s.found {
        Some(found) => found.place,
        None => 0,
    }
}

// Where a scan begins: at its end where nothing is sought.
pub fn first_place(q: Query, len: usize) -> usize
    ensures { result ≡ first_place q len }
{
    if q.sought == Sought::Nothing {
        return len;
    }
    0
}

// Whether a record that counts is what is sought.
fn is_wanted(r: Record, q: Query) -> bool
    ensures { result ≡ is_wanted q r }
{
    match q.sought {
        Sought::Best => r.availability == 1,
        Sought::Same | Sought::Nothing => r.mask == q.mask,
    }
}

// A record that counts is found, where it is wanted and none of a longer mask was.
fn taken(s: Scan, place: usize, r: Record, q: Query) -> Scan
    ensures { result ≡ taken_of q s place r }
{
    if !is_wanted(r, q) {
        return s;
    }
    if let Some(found) = s.found {
        if r.mask <= found.mask {
            return s;
        }
    }
    Scan {
        found: Some(Match {
            place,
            mask: r.mask,
            port: r.port,
            capabilities: r.capabilities,
        }),
        seen: s.seen,
    }
}

// A record that matches: it counts where the rules do not refuse it and no lower place holds its entry.
fn judged(s: Scan, place: usize, r: Record, q: Query) -> Scan
    ensures { result ≡ judged_of q s place r }
{
    let Check::Passed = settings::check_ready(r.port, q.own) else {
        return s;
    };
    let Check::Passed = routes::check_codes(r.availability, r.capabilities) else {
        return s;
    };
    let Some(n) = address::mask_form(Mask(r.mask)) else {
        return s;
    };
    if (s.seen >> n) % 2 == 1 {
        return s;
    }
    let noted = Scan {
        found: s.found,
        seen: s.seen | (1u64 << n),
    };
    taken(noted, place, r, q)
}

// What is found once the record at this place is looked at too.
pub fn step(s: Scan, place: usize, r: Record, q: Query) -> Scan
    ensures { result ≡ step_of q s place r }
{
    if q.address & r.mask != r.prefix {
        return s;
    }
    if r.filled == 0 {
        return s;
    }
    if r.mission != q.mission {
        return s;
    }
    judged(s, place, r, q)
}

// Whether a record is refused, by the set of the ports that are set up and the set of those that its mission has.
pub fn record_refusal(x: Record, ready: u32, own: u32) -> Result<(), Refusal>
    ensures { result ≡ outcome (refusals_of x ready own) tt }
{
    let Check::Passed = settings::check_ready(x.port, ready) else {
        return Err(Refusal::NoPlace);
    };
    let Check::Passed = routes::check_prefix(Address(x.prefix), Mask(x.mask)) else {
        return Err(Refusal::WrongMask);
    };
    let Check::Passed = routes::check_codes(x.availability, x.capabilities) else {
        return Err(Refusal::CodeOutOfRange);
    };
    if sets::MISSIONS <= x.mission {
        return Err(Refusal::CodeOutOfRange);
    }
    let Check::Passed = settings::check_ready(x.port, own) else {
        return Err(Refusal::CodeOutOfRange);
    };
    Ok(())
}
