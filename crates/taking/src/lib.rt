// Taking from a port: the first entry that waits there for a mission is handed out.
//
// A port that is not set up hands out nothing, nor does another mission's: to this one it is not set up. What waits is kept in the order
// in which it goes out: to take is to take from the front.
//
// The awkward case is a queue with nothing in it: it has a refusal of its own, and the state stays as it is to the last word.
#![tactic(auto)]

ghost use Rattle.std.specs.Prelude.{◌≡◌, length};
ghost use Rattle.checks.specs.Told.{told};
ghost use Rattle.state.specs.Seen.{seated, on_seated};
ghost use Rattle.state.specs.Layout.{board_words, decode_board, mission_words, decode};
ghost use Rattle.taking.specs.Taking.{take_outcome, taken_relay};

use checks::{Check, Refusal};
use queue::Entry;
use state::{BoardWords, MissionWords};

// The first entry that waits on a port, removed.
pub fn take(board: &BoardWords, mission: &mut MissionWords, port: u32) -> Result<Entry, Refusal>
    ensures value { told result ≡ take_outcome (seated (decode_board board.now) (decode mission.old)) port }
    ensures mission_after { decode mission.new ≡ on_seated (decode_board board.now) (λ r. taken_relay r port) (decode mission.old) }
{
    let number = state_mission::number_of(mission);
    let Check::Passed = state_board::check_port(board, number, port) else {
        return Err(Refusal::NoPort);
    };
    let q = state_queues::queue_of(mission, port as usize);
    let taken = q.take();
    let Some(entry) = taken.head else {
        return Err(Refusal::NothingWaiting);
    };
    state_queues::put_queue(mission, port as usize, taken.queue);
    Ok(entry)
}
