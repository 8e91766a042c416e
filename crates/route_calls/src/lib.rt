// The calls on a list of routes, but for the list itself: what a call seeks in it, and what it answers and writes.
//
// Crate `harpjuniper_routes` does no more than scan the list, read one record of it and store one. All that decides is here and works on numbers and
// records by value: what refuses a call before the list is read, what is to be found in it, and what follows from what was found. A call that is
// refused seeks nothing, so that its scan ends at once, and stores again the record that it read: no branch is left to the caller, and a refused
// writing changes nothing.
//
// The awkward case is a list that is too long or words of the wrong number. Both are 21, as a place beyond the list's end is, and the order in which
// they are tested shows nowhere.
#![tactic(auto)]

ghost use Rattle.std.specs.Prelude.{◌≡◌};
ghost use Rattle.lent_state.specs.Read.{word_answer};
ghost use Rattle.route_calls.specs.Search.{search_parts};
ghost use Rattle.route_calls.specs.Calls.{
  refused_query,
  search_query,
  scan_number,
  search_number,
  own_ports,
  order_refusal,
  order_of,
  same_query,
  order_answer,
  chosen_record,
  emptying_of,
  cleared_record,
  record_words,
  record_word,
};
ghost use Rattle.adjust.specs.Settled.{new_record};

use address::Mask;
use checks::Check;
use listing::{Query, Scan, Sought};
use routes::Record;
use state::{BoardWords, MissionWords};

// A record to be written: what refuses it before the list is read, its place, the ports of the mission that may use it, and the record.
#[derive(Clone, Copy)]
pub struct Order {
    pub refusal: u32,
    pub place: usize,
    pub own: u32,
    pub route: Record,
}

// A place to be emptied, and what refuses that.
#[derive(Clone, Copy)]
pub struct Emptying {
    pub refusal: u32,
    pub place: usize,
}

// A question that seeks nothing.
fn refused(refusal: u32) -> Query
    ensures { result ≡ refused_query refusal }
{
    Query {
        refusal: refusal,
        sought: Sought::Nothing,
        address: 0,
        mask: 0,
        mission: 0,
        own: 0,
    }
}

// What a mission seeks for an address: its longest match, by its own ports.
pub fn asked(board: &[u32], mission: &[u32], count: usize, address: u32) -> Query
    ensures { result ≡ search_query board.now mission.now count address }
{
    if sets::indexes::ROUTES < count {
        return refused(21);
    }
    let Ok(board) = <&BoardWords>::try_from(board) else {
        return refused(21);
    };
    let Ok(mission) = <&MissionWords>::try_from(mission) else {
        return refused(21);
    };
    let number = state_mission::number_of(mission);
    Query {
        refusal: 0,
        sought: Sought::Best,
        address: address,
        mask: 0,
        mission: number,
        own: state_board::ready::ready_ports(board, number),
    }
}

// Three parts in one number, above a refusal that is none and a yes. Of a list as C lends it a port may be any number: each part is taken modulo its
// width, so that none can reach into the next.
fn parts(place: usize, ones: u32, port: u32) -> u64
    ensures { result ≡ search_parts 1 place ones port }
{
    let low = 0x100 + (place % 0x1_0000) as u64 * 0x1_0000;
    low + (ones % 0x100) as u64 * 0x1_0000_0000 + (port % 0x100) as u64 * 0x100_0000_0000
}

// What the scan found in one number. The route with mask 0 has 0 ones and is found all the same, so that found is a part of its own.
fn scan_number(s: Scan) -> u64
    ensures { result ≡ scan_number s }
{
    let Some(found) = s.found else {
        return 0;
    };
    let ones = address::count_ones(Mask(found.mask));
    parts(found.place, ones, found.port)
}

// What the mission is told: the refusal, or what was found.
pub fn search_number(q: Query, s: Scan) -> u64
    ensures { result ≡ search_number q s }
{
    if q.refusal != 0 {
        return q.refusal as u64;
    }
    scan_number(s)
}

fn own_ports(board: &[u32], mission: u32) -> u32
    ensures { result ≡ own_ports board.now mission }
{
    let Ok(board) = <&BoardWords>::try_from(board) else {
        return 0;
    };
    state_board::ready::ready_ports(board, mission)
}

// What refuses the record at this place, or 0, before the list is read.
fn order_refusal(board: &[u32], count: usize, place: u32, x: Record, own: u32) -> u32
    ensures { result ≡ order_refusal board.now count place x own }
{
    let Ok(board) = <&BoardWords>::try_from(board) else {
        return 21;
    };
    if sets::indexes::ROUTES < count {
        return 21;
    }
    let Check::Passed = settings::check_place(place, count as u32) else {
        return 21;
    };
    checks::number_in(listing::record_refusal(x, state_board::ready::all_ready(board), own))
}

// The record to be written, with all that is known of it before the list is read.
pub fn ordered(
    board: &[u32],
    count: usize,
    place: u32,
    prefix: u32,
    mask: u32,
    port: u32,
    availability: u32,
    capabilities: u32,
    mission: u32,
) -> Order
    ensures { result ≡ order_of board.now count place (new_record prefix mask port availability capabilities mission) }
{
    let x = Record {
        filled: 1,
        prefix: prefix,
        mask: mask,
        port: port,
        availability: availability,
        capabilities: capabilities,
        mission: mission,
    };
    let own = own_ports(board, mission);
    let refusal = order_refusal(board, count, place, x, own);
    Order {
        refusal: refusal,
        place: place as usize,
        own: own,
        route: x,
    }
}

// The place of the record to be written.
pub fn place_of(o: Order) -> usize
    ensures { result ≡ o.place }
{
    o.place
}

// What is sought before the record is written: the same entry.
pub fn same_query(o: Order) -> Query
    ensures { result ≡ same_query o }
{
    if o.refusal != 0 {
        return refused(o.refusal);
    }
    Query {
        refusal: 0,
        sought: Sought::Same,
        address: o.route.prefix,
        mask: o.route.mask,
        mission: o.route.mission,
        own: o.own,
    }
}

// What the operator is told: 23 where another place has the entry.
pub fn answer(o: Order, s: Scan) -> u32
    ensures { result ≡ order_answer o s }
{
    if o.refusal != 0 {
        return o.refusal;
    }
    let Some(_) = s.found else {
        return 0;
    };
    if listing::place_of(s) != o.place {
        return 23;
    }
    0
}

// The record to store: the new one, or the old one again.
pub fn chosen(o: Order, s: Scan, old: Record) -> Record
    ensures { result ≡ chosen_record o s old }
{
    if answer(o, s) == 0 {
        return o.route;
    }
    old
}

// What refuses that this place is emptied, or 0.
pub fn clearing(count: usize, place: u32) -> Emptying
    ensures { result ≡ emptying_of count place }
{
    let at = place as usize;
    if sets::indexes::ROUTES < count {
        return Emptying {
            refusal: 21,
            place: at,
        };
    }
    if count <= at {
        return Emptying {
            refusal: 21,
            place: at,
        };
    }
    Emptying {
        refusal: 0,
        place: at,
    }
}

// The record to store: an empty one, or the old one again.
pub fn cleared(e: Emptying, old: Record) -> Record
    ensures { result ≡ cleared_record e old }
{
    if e.refusal != 0 {
        return old;
    }
    routes::empty_record()
}

// A place as a list takes it.
pub fn index(place: u32) -> usize
    ensures { result ≡ place }
{
    place as usize
}

// Word i of a record; the refusal 21 stands above 32 bits.
fn word_of(x: Record, i: u32) -> u64
    ensures { result ≡ word_answer (record_words x) i }
{
    lent_state::word_of(
        &[
            x.filled,
            x.prefix,
            x.mask,
            x.port,
            x.availability,
            x.capabilities,
            x.mission,
        ],
        i,
    )
}

// Word i of the record x that stands at this place, among so many.
pub fn record_word(count: usize, place: u32, x: Record, i: u32) -> u64
    ensures { result ≡ record_word count place x i }
{
    if sets::indexes::ROUTES < count {
        return checks::refusal_number(21);
    }
    if count <= place as usize {
        return checks::refusal_number(21);
    }
    word_of(x, i)
}
