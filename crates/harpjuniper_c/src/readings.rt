// What C calls of `harpjuniper_reads`, by its C name: each function calls the one there, and promises the same.
ghost use Rattle.std.specs.Prelude.{◌≡◌};
ghost use Rattle.checks.specs.Answer.{refusal_number};
ghost use Rattle.state.specs.Seen.{Board, State};
ghost use Rattle.lent_state.specs.View.{told_board, told};
ghost use Rattle.harpjuniper_reads.specs.Back.{port_answer, group_answer, path_answer, pair_answer};

// 1 for a router, 0 for a host.
#[unsafe(no_mangle)]
pub extern "C" fn hj_get_router(board: &[u32]) -> u64
    ensures { result ≡ told_board (λ (x : Board). x.router) (refusal_number 21) board.now }
{
    harpjuniper_reads::hj_get_router(board)
}

// How old a pair may be before a sweep frees it, in seconds.
#[unsafe(no_mangle)]
pub extern "C" fn hj_get_lifetime(board: &[u32]) -> u64
    ensures { result ≡ told_board (λ (x : Board). x.lifetime) (refusal_number 21) board.now }
{
    harpjuniper_reads::hj_get_lifetime(board)
}

// Whether echo requests are dropped: 1 or 0.
#[unsafe(no_mangle)]
pub extern "C" fn hj_get_echo_drop(board: &[u32]) -> u64
    ensures { result ≡ told_board (λ (x : Board). x.drop) (refusal_number 21) board.now }
{
    harpjuniper_reads::hj_get_echo_drop(board)
}

// A port: 0 is whether it is set up, 1 the address, 2 the mask, 3 the MTU, 4 the mission.
#[unsafe(no_mangle)]
pub extern "C" fn hj_port_word(board: &[u32], port: u32, word: u32) -> u64
    ensures { result ≡ told_board (λ (x : Board). port_answer x port word) (refusal_number 21) board.now }
{
    harpjuniper_reads::hj_port_word(board, port, word)
}

// A group: 0 is whether the place is filled, 1 the address, 2 the ports to send to, 3 those subscribed.
#[unsafe(no_mangle)]
pub extern "C" fn hj_group_word(mission: &[u32], place: u32, word: u32) -> u64
    ensures { result ≡ told (λ (x : State). group_answer x.mission place word) (refusal_number 21) mission.now }
{
    harpjuniper_reads::hj_group_word(mission, place, word)
}

// A path: 0 is whether the place is filled, 1 the path address, 2 the ports to send to, 3 whether it is delivered here.
#[unsafe(no_mangle)]
pub extern "C" fn hj_path_word(mission: &[u32], place: u32, word: u32) -> u64
    ensures { result ≡ told (λ (x : State). path_answer x.mission place word) (refusal_number 21) mission.now }
{
    harpjuniper_reads::hj_path_word(mission, place, word)
}

// The last second that the mission accepted.
#[unsafe(no_mangle)]
pub extern "C" fn hj_last_second(mission: &[u32]) -> u64
    ensures { result ≡ told (λ (x : State). x.memory.last) (refusal_number 21) mission.now }
{
    harpjuniper_reads::hj_last_second(mission)
}

// A pair: 0 is the format of its timestamp, 0 where the place is free, 1 the source, 2 and 3 the timestamp's upper and lower octets, 4 the second in which
// it came.
#[unsafe(no_mangle)]
pub extern "C" fn hj_pair_word(mission: &[u32], place: u32, word: u32) -> u64
    ensures { result ≡ told (λ (x : State). pair_answer x.memory place word) (refusal_number 21) mission.now }
{
    harpjuniper_reads::hj_pair_word(mission, place, word)
}
