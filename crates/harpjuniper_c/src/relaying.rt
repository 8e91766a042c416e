// What C calls of `harpjuniper_relay`, by its C name: each function calls the one there, and promises the same.
ghost use Rattle.std.specs.Prelude.{◌≡◌};
ghost use Rattle.state.specs.Relay.{Relay};
ghost use Rattle.state.specs.Seen.{Board, State, on_memory};
ghost use Rattle.taking.specs.Taking.{taken_relay};
ghost use Rattle.checks.specs.Order.{first_of};
ghost use Rattle.checks.specs.Answer.{refusal_number};
ghost use Rattle.floods.specs.Sweep.{sweep_checks, swept_memory};
ghost use Rattle.lent_state.specs.View.{lent, told, told_both, changed_both, told_relay, changed_relay};
ghost use Rattle.harpjuniper_relay.specs.Face.{take_answer, counter_answer, waiting_answer};

// The first entry that waits on a port, removed.
#[unsafe(no_mangle)]
pub extern "C" fn hj_take(board: &[u32], mission: &mut [u32], port: u32) -> u64
    ensures value { result ≡ told_relay (λ (x : Relay). take_answer x port) (refusal_number 16) board.now mission.old }
    ensures mission_after { lent mission.new ≡ changed_relay (λ (x : Relay). taken_relay x port) board.now mission.old }
{
    harpjuniper_relay::hj_take(board, mission, port)
}

// A counter.
#[unsafe(no_mangle)]
pub extern "C" fn hj_counter(mission: &[u32], counter: u32) -> u64
    ensures { result ≡ told (λ (x : State). counter_answer x.counters counter) (refusal_number 21) mission.now }
{
    harpjuniper_relay::hj_counter(mission, counter)
}

// How many entries wait on a port.
#[unsafe(no_mangle)]
pub extern "C" fn hj_waiting(mission: &[u32], port: u32) -> u64
    ensures { result ≡ told (λ (x : State). waiting_answer x.mission port) (refusal_number 21) mission.now }
{
    harpjuniper_relay::hj_waiting(mission, port)
}

// A sweep of the pairs at a second: those older than the lifetime are freed.
#[unsafe(no_mangle)]
pub extern "C" fn hj_sweep(board: &[u32], mission: &mut [u32], second: u32) -> u32
    ensures value { result ≡ told_both (λ (x : Board) (s : State). first_of (sweep_checks s.memory second)) 21 board.now mission.old }
    ensures mission_after { lent mission.new
        ≡ changed_both (λ (x : Board) (s : State). on_memory (swept_memory x.lifetime second) s) board.now mission.old }
{
    harpjuniper_relay::hj_sweep(board, mission, second)
}
