// What C calls to set a mission's places of groups and of paths, and to empty them.
//
// Each function tests the number of words lent and then calls the setting. None requires anything: whatever words and numbers come, the
// answer is 0 or the number of the first test that refuses, and a refused setting changes nothing. Where the words are not as many as
// a board or a mission has, there is no place in them: 21. A set of ports has port p as 2 to the power of p. To fill a place the board is read, for a set
// names ports that are set up and the mission's own; to empty one it is not lent.
ghost use Rattle.std.specs.Prelude.{◌≡◌};
ghost use Rattle.checks.specs.Order.{first_of};
ghost use Rattle.sets.specs.Limits.{group_places, path_places};
ghost use Rattle.state.specs.Relay.{Mission, Relay};
ghost use Rattle.state.specs.Seen.{State, on_mission};
ghost use Rattle.lent_state.specs.View.{lent, told, changed, told_relay, changed_relay};
ghost use Rattle.refusals.specs.Lists.{group_checks, path_checks, clear_checks};
ghost use Rattle.adjust.specs.Settled.{settled_group, settled_path, cleared_group, cleared_path};

use address::{Address, PathAddress};
use adjust::groups_and_paths::{clear_group, clear_path, set_group, set_path};
use state::{BoardWords, MISSION_WORDS};

// A group: its address, the ports to send to and those subscribed.
#[unsafe(no_mangle)]
pub extern "C" fn hj_set_group(
    board: &[u32],
    mission: &mut [u32],
    place: u32,
    address: u32,
    send: u32,
    subscribed: u32,
) -> u32
    ensures value { result
        ≡ told_relay
        (λ (x : Relay). first_of (group_checks x place (record { 0 = address }) send subscribed)) 21 board.now mission.old }
    ensures mission_after { lent mission.new
        ≡ changed_relay
        (λ (x : Relay). settled_group x place (record { 0 = address }) send subscribed) board.now mission.old }
{
    let Ok(board) = <&BoardWords>::try_from(board) else {
        return 21;
    };
    let Some(mission) = mission.as_mut_array::<MISSION_WORDS>() else {
        return 21;
    };
    checks::number_in(set_group(board, mission, place, Address(address), send, subscribed))
}

// A path: its address, the ports to send to and whether it is delivered here.
#[unsafe(no_mangle)]
pub extern "C" fn hj_set_path(
    board: &[u32],
    mission: &mut [u32],
    place: u32,
    path: u32,
    send: u32,
    here: u32,
) -> u32
    ensures value { result
        ≡ told_relay (λ (x : Relay). first_of (path_checks x place (record { 0 = path }) send here)) 21 board.now mission.old }
    ensures mission_after { lent mission.new
        ≡ changed_relay (λ (x : Relay). settled_path x place (record { 0 = path }) send here) board.now mission.old }
{
    let Ok(board) = <&BoardWords>::try_from(board) else {
        return 21;
    };
    let Some(mission) = mission.as_mut_array::<MISSION_WORDS>() else {
        return 21;
    };
    checks::number_in(set_path(board, mission, place, PathAddress(path), send, here))
}

// A group's place, emptied.
#[unsafe(no_mangle)]
pub extern "C" fn hj_clear_group(mission: &mut [u32], place: u32) -> u32
    ensures value { result ≡ told (λ (x : State). first_of (clear_checks place group_places)) 21 mission.old }
    ensures mission_after { lent mission.new ≡ changed (λ (x : State). on_mission (λ (m : Mission). cleared_group m place) x) mission.old }
{
    let Some(mission) = mission.as_mut_array::<MISSION_WORDS>() else {
        return 21;
    };
    checks::number_in(clear_group(mission, place))
}

// A path's place, emptied.
#[unsafe(no_mangle)]
pub extern "C" fn hj_clear_path(mission: &mut [u32], place: u32) -> u32
    ensures value { result ≡ told (λ (x : State). first_of (clear_checks place path_places)) 21 mission.old }
    ensures mission_after { lent mission.new ≡ changed (λ (x : State). on_mission (λ (m : Mission). cleared_path m place) x) mission.old }
{
    let Some(mission) = mission.as_mut_array::<MISSION_WORDS>() else {
        return 21;
    };
    checks::number_in(clear_path(mission, place))
}
