// What C calls of what waits, of what was counted and of what is remembered: taking, how many wait, the counters, and the sweep. All are of one mission.
//
// Each function tests the number of words lent and then calls the relay; the two that read test the number of the counter or the port before that.
// Both tests of these answer 21, so the order cannot be seen, and no proof that such a number is refused has to read the words.
// None requires anything: whatever words or port come, the answer is
// the one that the definitions state. Where the words are not as many as a board or a mission's state has, there is no port: taking answers
// 16, reading and sweeping answer 21, and nothing is written. The board is lent to read: a sweep takes the lifetime from it.
// A refusal of words is written as its number here, and not by `Refusal`: C is told numbers.
#![tactic(auto)]

ghost use Rattle.std.specs.Prelude.{◌≡◌};
ghost use Rattle.state.specs.Relay.{Relay};
ghost use Rattle.state.specs.Seen.{Board, State, on_memory};
ghost use Rattle.taking.specs.Taking.{taken_relay};
ghost use Rattle.checks.specs.Order.{first_of};
ghost use Rattle.checks.specs.Answer.{refusal_number};
ghost use Rattle.answers.specs.Answers.{numbered_taking};
ghost use Rattle.checks.specs.Told.{told as told_taking};
ghost use Rattle.floods.specs.Sweep.{sweep_checks, swept_memory};
ghost use Rattle.lent_state.specs.View.{lent, told, told_both, changed_both, told_relay, changed_relay};
ghost use Rattle.harpjuniper_relay.specs.Face.{
  take_answer,
  counter_answer,
  waiting_answer,
};

use checks::Refusal;
use queue::Entry;
use state::{BoardWords, MISSION_WORDS, MissionWords};

// What taking answers, with the refusal's number.
fn numbered(taken: Result<Entry, Refusal>) -> Result<Entry, u32>
    ensures { numbered_taking result ≡ told_taking taken }
{
    match taken {
        Ok(entry) => Ok(entry),
        Err(refusal) => Err(refusal.number()),
    }
}

// The first entry that waits on a port, removed.
#[unsafe(no_mangle)]
pub extern "C" fn hj_take(board: &[u32], mission: &mut [u32], port: u32) -> u64
    ensures value { result ≡ told_relay (λ (x : Relay). take_answer x port) (refusal_number 16) board.now mission.old }
    ensures mission_after { lent mission.new ≡ changed_relay (λ (x : Relay). taken_relay x port) board.now mission.old }
{
    let Ok(board) = <&BoardWords>::try_from(board) else {
        return checks::refusal_number(16);
    };
    let Some(mission) = mission.as_mut_array::<MISSION_WORDS>() else {
        return checks::refusal_number(16);
    };
    answers::taking_number(numbered(taking::take(board, mission, port)))
}

// A counter.
#[unsafe(no_mangle)]
pub extern "C" fn hj_counter(mission: &[u32], counter: u32) -> u64
    ensures { result ≡ told (λ (x : State). counter_answer x.counters counter) (refusal_number 21) mission.now }
{
    if sets::COUNTERS <= counter {
        return checks::refusal_number(21);
    }
    let Ok(mission) = <&MissionWords>::try_from(mission) else {
        return checks::refusal_number(21);
    };
    state_mission::counter_of(mission, counter as usize) as u64
}

// How many entries wait on a port.
#[unsafe(no_mangle)]
pub extern "C" fn hj_waiting(mission: &[u32], port: u32) -> u64
    ensures { result ≡ told (λ (x : State). waiting_answer x.mission port) (refusal_number 21) mission.now }
{
    if sets::PORTS <= port {
        return checks::refusal_number(21);
    }
    let Ok(mission) = <&MissionWords>::try_from(mission) else {
        return checks::refusal_number(21);
    };
    state_queues::count_of(mission, port as usize) as u64
}

// A sweep of the pairs at a second: those older than the lifetime are freed.
#[unsafe(no_mangle)]
pub extern "C" fn hj_sweep(board: &[u32], mission: &mut [u32], second: u32) -> u32
    ensures value { result ≡ told_both (λ (x : Board) (s : State). first_of (sweep_checks s.memory second)) 21 board.now mission.old }
    ensures mission_after { lent mission.new
        ≡ changed_both (λ (x : Board) (s : State). on_memory (swept_memory x.lifetime second) s) board.now mission.old }
{
    let Ok(board) = <&BoardWords>::try_from(board) else {
        return 21;
    };
    let Some(mission) = mission.as_mut_array::<MISSION_WORDS>() else {
        return 21;
    };
    checks::number_in(floods::sweep(mission, state_board::lifetime_of(board), second))
}
