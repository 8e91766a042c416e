// What C calls of `harpjuniper_echo`, by its C name: each function calls the one there, and promises the same.
ghost use Rattle.harpjuniper_echo.specs.Face.{AnswersEcho};

use routes::Record;

// The reply to the octets that came in by a port, where they are an echo request that is answered.
#[unsafe(no_mangle)]
pub extern "C" fn hj_echo(
    board: &[u32],
    mission: &mut [u32],
    routes: &[Record],
    port: u32,
    slot: u16,
    octets: &[u8],
    output: &mut [u8],
) -> u64
    ensures { AnswersEcho board.now mission.old routes.now port slot octets.now output.old
        result mission.new output.new }
{
    harpjuniper_echo::hj_echo(board, mission, routes, port, slot, octets, output)
}
