// What C calls of `harpjuniper_receive`, by its C name: each function calls the one there, and promises the same.
ghost use Rattle.harpjuniper_receive.specs.Face.{Receives};

use routes::Record;

// The verdict on the octets that came in by a port in a second, carried out.
#[unsafe(no_mangle)]
pub extern "C" fn hj_receive_at(
    board: &[u32],
    mission: &mut [u32],
    routes: &[Record],
    port: u32,
    slot: u16,
    second: u32,
    octets: &[u8],
    output: &mut [u8],
) -> u64
    ensures { Receives board.now mission.old routes.now port slot second octets.now output.old
        result mission.new output.new }
{
    harpjuniper_receive::hj_receive_at(board, mission, routes, port, slot, second, octets, output)
}
