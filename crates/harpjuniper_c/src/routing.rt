// What C calls of `harpjuniper_routes`, by its C name: each function calls the one there, and promises the same.
ghost use Rattle.harpjuniper_routes.specs.Face.{Searches, SetsRoute, ClearsRoute, ReadsRouteWord};

use routes::Record;

// The place, the ones and the port of the route that the address takes, or no.
#[unsafe(no_mangle)]
pub extern "C" fn hj_search(board: &[u32], mission: &[u32], routes: &[Record], address: u32) -> u64
    ensures { Searches board.now mission.now routes.now address result }
{
    harpjuniper_routes::hj_search(board, mission, routes, address)
}

// A record is written; with a refusal the list stays as it is.
#[unsafe(no_mangle)]
pub extern "C" fn hj_set_route(
    board: &[u32],
    routes: &mut [Record],
    place: u32,
    prefix: u32,
    mask: u32,
    port: u32,
    availability: u32,
    capabilities: u32,
    mission: u32,
) -> u32
    ensures { SetsRoute board.now routes.old place prefix mask port availability capabilities mission result routes.new }
{
    harpjuniper_routes::hj_set_route(
        board,
        routes,
        place,
        prefix,
        mask,
        port,
        availability,
        capabilities,
        mission,
    )
}

// A place is emptied, an empty one too.
#[unsafe(no_mangle)]
pub extern "C" fn hj_clear_route(routes: &mut [Record], place: u32) -> u32
    ensures { ClearsRoute routes.old place result routes.new }
{
    harpjuniper_routes::hj_clear_route(routes, place)
}

// Word i of the record at a place, as it stands; the refusal 21 stands above 32 bits.
#[unsafe(no_mangle)]
pub extern "C" fn hj_route_word(routes: &[Record], place: u32, word: u32) -> u64
    ensures { ReadsRouteWord routes.now place word result }
{
    harpjuniper_routes::hj_route_word(routes, place, word)
}
