// What C calls of `harpjuniper_batch`, by its C name: each function calls the one there, and promises the same.
ghost use Rattle.harpjuniper_batch.specs.Face.{ReceivesMany};

use routes::Record;

// The verdicts on the datagrams that came in by their ports in their seconds, carried out.
#[unsafe(no_mangle)]
pub extern "C" fn hj_receive_many(
    board: &[u32],
    mission: &mut [u32],
    routes: &[Record],
    lengths: &[u32],
    ports: &[u32],
    slots: &[u16],
    seconds: &[u32],
    octets: &[u8],
    answers: &mut [u64],
    output: &mut [u8],
) -> u32
    ensures { ReceivesMany board.now mission.old routes.now
        (record {
          lengths = lengths.now;
          ports = ports.now;
          slots = slots.now;
          seconds = seconds.now;
          octets = octets.now;
        }) answers.old output.old result mission.new answers.new output.new }
{
    harpjuniper_batch::hj_receive_many(
        board, mission, routes, lengths, ports, slots, seconds, octets, answers, output,
    )
}
