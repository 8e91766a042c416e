// The list of routes that both missions are lent: a record of it read, written, and all of it scanned.
//
// The functions here are thin: they test a bound, read or store one record, or loop; what a record adds to a scan is crate listing's.
// Each is total: beyond the list a record is empty and a store does nothing. A list of any length is taken.
#![tactic(auto)]

ghost use Rattle.std.specs.Prelude.{◌≡◌, set};
ghost use Rattle.routes.specs.Records.{record_at};
ghost use Rattle.listing.specs.Scan.{scan_of};

use listing::{Query, Scan};
use routes::Record;

// The record at a place; beyond the list an empty one.
pub fn record_at(list: &[Record], i: usize) -> Record
    ensures { result ≡ record_at list.now i }
{
    if i < list.len() {
        return list[i];
    }
    Record {
        filled: 0,
        prefix: 0,
        mask: 0,
        port: 0,
        availability: 0,
        capabilities: 0,
        mission: 0,
    }
}

// The record at a place is replaced; beyond the list nothing is.
pub fn set_at(list: &mut [Record], i: usize, r: Record)
    ensures { list.new ≡ set list.old i r }
{
    if i < list.len() {
        list[i] = r;
    }
}

// What is sought in the list, looked for at each place in turn.
pub fn scan(list: &[Record], q: Query) -> Scan
    ensures { result ≡ scan_of q list.now }
{
    let mut found = listing::begun();
    for i in listing::first_place(q, list.len())..list.len() {
        found = listing::step(found, i, list[i], q);
    }
    found
}
