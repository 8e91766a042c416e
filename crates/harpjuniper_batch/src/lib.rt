// What C calls with many datagrams: a batch, heard one item after the other.
//
// All that is done stands in crate batch, but for the scan of the list of routes. These two functions alone have all ten slices: the one asks about
// an item, scans the list for its route and finishes it, the other does so for each item. Nothing is required of the caller: whatever words, records,
// lists, octets or room come, the answer is the one that the definitions state, and so are all answers and outputs.
//
// The awkward case is a refusal of the whole call, 21 or 27: then no item is heard, and nothing is written. Words of the wrong number are no such
// refusal: each item is answered 16, as a call of its own would be.
#![tactic(auto)]

ghost use Rattle.std.specs.Prelude.{length};
ghost use Rattle.batch.specs.Items.{Lists};
ghost use Rattle.batch.specs.Turn.{Hearable, ItemHeard};
ghost use Rattle.harpjuniper_batch.specs.Face.{ReceivesMany};

use batch::{Plan, Progress};
use routes::Record;

// One item: what is asked about it, its route sought in the list, and what becomes of it.
fn hear_item(
    board: &[u32],
    mission: &mut [u32],
    routes: &[Record],
    lengths: &[u32],
    ports: &[u32],
    slots: &[u16],
    seconds: &[u32],
    octets: &[u8],
    answers: &mut [u64],
    output: &mut [u8],
    i: usize,
    at: Progress,
    p: Plan,
) -> Progress
    requires { Hearable board.now mission.old (length routes.now) lengths.now ports.now slots.now seconds.now octets.now answers.old output.old i at p }
    ensures { ItemHeard board.now mission.old routes.now lengths.now ports.now slots.now
        seconds.now octets.now answers.old output.old i at result mission.new answers.new
        output.new }
{
    let a = batch::ask(
        board,
        mission,
        routes.len(),
        lengths,
        ports,
        seconds,
        octets,
        i,
        at,
        p,
    );
    let q = relay::query_of(a);
    let s = list::scan(routes, q);
    batch::finish(
        board, mission, lengths, slots, seconds, octets, answers, output, i, at, a, s,
    )
}

// The verdicts on the datagrams that came in by their ports in their seconds, carried out.
#[unsafe(no_mangle)]
pub extern "C" fn hj_receive_many(
    board: &[u32],
    mission: &mut [u32],
    routes: &[Record],
    lengths: &[u32],
    ports: &[u32],
    slots: &[u16],
    seconds: &[u32],
    octets: &[u8],
    answers: &mut [u64],
    output: &mut [u8],
) -> u32
    ensures { ReceivesMany board.now mission.old routes.now
        (record {
          lengths = lengths.now;
          ports = ports.now;
          slots = slots.now;
          seconds = seconds.now;
          octets = octets.now;
        }) answers.old output.old result mission.new answers.new output.new }
{
    let p = batch::planned(
        board,
        mission,
        lengths,
        routes.len(),
        ports.len(),
        slots.len(),
        seconds.len(),
        octets.len(),
        answers.len(),
        output.len(),
    );
    let n = batch::items_of(p);
    let mut at = batch::start();
    // A `while` and no `for`: the wrong program hj_receive_many_skips_every_other_item changes the step.
    let mut i = 0;
    while i < n {
        at = hear_item(
            board, mission, routes, lengths, ports, slots, seconds, octets, answers, output, i, at,
            p,
        );
        i = i + 1;
    }
    batch::refusal_of(p)
}
