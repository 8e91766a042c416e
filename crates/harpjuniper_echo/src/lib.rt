// What C calls with an echo request: answering it.
//
// As in receiving, three things are lent: the operator's board and list of routes, to be read, and the mission's own words. Crate answering judges the request and
// makes the reply (`before`); the list is scanned for its route; and crate answering sends it (`after`). This function alone has all five
// slices, and does not branch. Nothing is required: whatever words, records, octets, port, slot or room come, the answer is the one that the definitions state.
//
// The awkward cases are those of receiving, a list over 512 records, which is refused by 21, and words of the wrong number, refused by 16; and a datagram that
// gets no reply, which is an answer without a number.
#![tactic(auto)]

ghost use Rattle.harpjuniper_echo.specs.Face.{AnswersEcho};

use routes::Record;

// The reply to the octets that came in by a port, where they are an echo request that is answered.
#[unsafe(no_mangle)]
pub extern "C" fn hj_echo(
    board: &[u32],
    mission: &mut [u32],
    routes: &[Record],
    port: u32,
    slot: u16,
    octets: &[u8],
    output: &mut [u8],
) -> u64
    ensures { AnswersEcho board.now mission.old routes.now port slot octets.now output.old
        result mission.new output.new }
{
    let a = answering::before(board, mission, routes.len(), port, octets, output.len());
    let q = answering::query_of(a);
    let s = list::scan(routes, q);
    answering::after(board, mission, slot, octets, output, a, s)
}
