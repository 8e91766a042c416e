// What C calls to set a node up: a fresh board and a fresh mission, router or host, a port, the lifetime of pairs, whether echo
// requests are dropped. Groups and paths stand in
// `groups_and_paths`, routes in the crate `harpjuniper_routes`.
//
// Each function tests the number of words lent and then calls the setting. None requires anything: whatever words and numbers come, the
// answer is 0 or the number of the first test that refuses, and a refused setting changes nothing. Where the words are not as many as
// a board or a mission has, there is no port or place in them: 21.
// A refusal of words is written as its number here, and not by `Refusal`: C is told numbers.
#![tactic(auto)]

pub mod groups_and_paths;

ghost use Rattle.std.specs.Prelude.{◌≡◌};
ghost use Rattle.checks.specs.Order.{first_of};
ghost use Rattle.state.specs.Layout.{board_words, mission_words};
ghost use Rattle.state.specs.Seen.{Board, State, fresh_board, put_lifetime};
ghost use Rattle.lent_state.specs.View.{lent_board, told_board, changed_board, lent, told, changed};
ghost use Rattle.refusals.specs.Lists.{port_checks, flag_checks, mission_checks};
ghost use Rattle.adjust.specs.Settled.{settled_router, settled_drop, settled_port, settled_fresh};

use address::{Address, Mask};
use state::{BOARD_WORDS, MISSION_WORDS};

// How many words a board has.
#[unsafe(no_mangle)]
pub extern "C" fn hj_board_words() -> u32
    ensures { result ≡ board_words }
{
    state::BOARD_WORDS as u32
}

// How many words a mission has.
#[unsafe(no_mangle)]
pub extern "C" fn hj_mission_words() -> u32
    ensures { result ≡ mission_words }
{
    state::MISSION_WORDS as u32
}

// A fresh board, whatever stood there.
#[unsafe(no_mangle)]
pub extern "C" fn hj_fresh_board(board: &mut [u32]) -> u32
    ensures value { result ≡ told_board (λ (x : Board). 0) 21 board.old }
    ensures board_after { lent_board board.new ≡ changed_board (λ (x : Board). fresh_board) board.old }
{
    let Some(board) = board.as_mut_array::<BOARD_WORDS>() else {
        return 21;
    };
    state_board::clear_board(board);
    0
}

// A fresh mission, of number 0 or 1, whatever stood there.
#[unsafe(no_mangle)]
pub extern "C" fn hj_fresh_mission(mission: &mut [u32], number: u32) -> u32
    ensures value { result ≡ told (λ (x : State). first_of (mission_checks number)) 21 mission.old }
    ensures mission_after { lent mission.new ≡ changed (λ (x : State). settled_fresh x number) mission.old }
{
    let Some(mission) = mission.as_mut_array::<MISSION_WORDS>() else {
        return 21;
    };
    checks::number_in(adjust::fresh_mission(mission, number))
}

// Router or host: 1 or 0.
#[unsafe(no_mangle)]
pub extern "C" fn hj_set_router(board: &mut [u32], router: u32) -> u32
    ensures value { result ≡ told_board (λ (x : Board). first_of (flag_checks router)) 21 board.old }
    ensures board_after { lent_board board.new ≡ changed_board (λ (x : Board). settled_router x router) board.old }
{
    let Some(board) = board.as_mut_array::<BOARD_WORDS>() else {
        return 21;
    };
    checks::number_in(adjust::set_router(board, router))
}

// A port: its address, mask and MTU, and the mission whose it is.
#[unsafe(no_mangle)]
pub extern "C" fn hj_set_port(
    board: &mut [u32],
    port: u32,
    address: u32,
    mask: u32,
    mtu: u32,
    mission: u32,
) -> u32
    ensures value { result ≡ told_board (λ (x : Board). first_of (port_checks x port (record { 0 = address }) (record { 0 = mask }) mtu mission)) 21 board.old }
    ensures board_after { lent_board board.new
        ≡ changed_board (λ (x : Board). settled_port x port (record { 0 = address }) (record { 0 = mask }) mtu mission) board.old }
{
    let Some(board) = board.as_mut_array::<BOARD_WORDS>() else {
        return 21;
    };
    checks::number_in(adjust::set_port(board, port, Address(address), Mask(mask), mtu, mission))
}

// How old a pair may be before a sweep frees it, in seconds: any number is taken.
#[unsafe(no_mangle)]
pub extern "C" fn hj_set_lifetime(board: &mut [u32], lifetime: u32) -> u32
    ensures value { result ≡ told_board (λ (x : Board). 0) 21 board.old }
    ensures board_after { lent_board board.new ≡ changed_board (λ (x : Board). put_lifetime x lifetime) board.old }
{
    let Some(board) = board.as_mut_array::<BOARD_WORDS>() else {
        return 21;
    };
    state_board::put_lifetime(board, lifetime);
    return 0;
}

// Whether all echo requests are dropped: 1 or 0.
#[unsafe(no_mangle)]
pub extern "C" fn hj_set_echo_drop(board: &mut [u32], drop: u32) -> u32
    ensures value { result ≡ told_board (λ (x : Board). first_of (flag_checks drop)) 21 board.old }
    ensures board_after { lent_board board.new ≡ changed_board (λ (x : Board). settled_drop x drop) board.old }
{
    let Some(board) = board.as_mut_array::<BOARD_WORDS>() else {
        return 21;
    };
    checks::number_in(adjust::set_drop(board, drop))
}
