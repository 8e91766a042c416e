// What C calls on a list of routes: the search of a mission, and the operator's writing, emptying and reading of a place.
//
// The list is lent as records, up to 512 of them, and may hold anything. These functions only scan it, read one record and store one (crate `list`),
// and pass what they have by value to crate `route_calls`, which decides. None of them branches: a call that is refused seeks nothing and stores
// again the record that it read. They are proved for a list of any length.
//
// The awkward case is a place beyond the list's end: the record there reads as an empty one, and storing there does nothing.
#![tactic(auto)]

ghost use Rattle.harpjuniper_routes.specs.Face.{Searches, SetsRoute, ClearsRoute, ReadsRouteWord};

use routes::Record;

// The place, the ones and the port of the route that the address takes, or no.
#[unsafe(no_mangle)]
pub extern "C" fn hj_search(board: &[u32], mission: &[u32], routes: &[Record], address: u32) -> u64
    ensures { Searches board.now mission.now routes.now address result }
{
    let q = route_calls::asked(board, mission, routes.len(), address);
    let s = list::scan(routes, q);
    route_calls::search_number(q, s)
}

// A record is written; with a refusal the list stays as it is. The answer is made right after the scan, which then takes 9 instructions a record on
// x86-64; where it is made last, the scan takes 13.
#[unsafe(no_mangle)]
pub extern "C" fn hj_set_route(
    board: &[u32],
    routes: &mut [Record],
    place: u32,
    prefix: u32,
    mask: u32,
    port: u32,
    availability: u32,
    capabilities: u32,
    mission: u32,
) -> u32
    ensures { SetsRoute board.now routes.old place prefix mask port availability capabilities mission result routes.new }
{
    let o = route_calls::ordered(
        board,
        routes.len(),
        place,
        prefix,
        mask,
        port,
        availability,
        capabilities,
        mission,
    );
    let q = route_calls::same_query(o);
    let s = list::scan(routes, q);
    let refusal = route_calls::answer(o, s);
    let old = list::record_at(routes, route_calls::place_of(o));
    let x = route_calls::chosen(o, s, old);
    list::set_at(routes, route_calls::place_of(o), x);
    refusal
}

// A place is emptied, an empty one too.
#[unsafe(no_mangle)]
pub extern "C" fn hj_clear_route(routes: &mut [Record], place: u32) -> u32
    ensures { ClearsRoute routes.old place result routes.new }
{
    let e = route_calls::clearing(routes.len(), place);
    let old = list::record_at(routes, e.place);
    let x = route_calls::cleared(e, old);
    list::set_at(routes, e.place, x);
    e.refusal
}

// Word i of the record at a place, as it stands; the refusal 21 stands above 32 bits.
#[unsafe(no_mangle)]
pub extern "C" fn hj_route_word(routes: &[Record], place: u32, word: u32) -> u64
    ensures { ReadsRouteWord routes.now place word result }
{
    let at = route_calls::index(place);
    let x = list::record_at(routes, at);
    route_calls::record_word(routes.len(), place, x, word)
}
