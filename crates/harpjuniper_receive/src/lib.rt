// What C calls with a datagram: receiving.
//
// Three things are lent: the operator's board and list of routes, to be read, and the mission's own words. Crate relay reads the board, the mission and
// the octets and says what is to be looked up (`before`); the list is scanned for it; and crate relay finishes the verdict, counts, enters
// the copies and writes the header that goes out (`after`). This function alone has all five slices, and does not branch.
// Nothing is required: whatever words, records, octets, port, slot, second or room come, the answer is the one that the definitions state.
//
// The awkward cases are a list over 512 records, which is refused by 21, and words of the wrong number, which hold no port: the answer is 16. Then
// nothing is sought, and nothing is written. The library's archive is put together of the crates whose names begin with `harpjuniper`; the C header
// (include/harpjuniper.h) has a doc block for each call.
#![tactic(auto)]

ghost use Rattle.harpjuniper_receive.specs.Face.{Receives};

use routes::Record;

// The verdict on the octets that came in by a port in a second, carried out.
#[unsafe(no_mangle)]
pub extern "C" fn hj_receive_at(
    board: &[u32],
    mission: &mut [u32],
    routes: &[Record],
    port: u32,
    slot: u16,
    second: u32,
    octets: &[u8],
    output: &mut [u8],
) -> u64
    ensures { Receives board.now mission.old routes.now port slot second octets.now output.old
        result mission.new output.new }
{
    let a = relay::before(
        board,
        mission,
        routes.len(),
        port,
        second,
        octets,
        output.len(),
    );
    let q = relay::query_of(a);
    let s = list::scan(routes, q);
    relay::after(board, mission, slot, second, octets, output, a, s)
}
