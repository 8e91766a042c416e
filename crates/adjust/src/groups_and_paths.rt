// The settings calls of group and path places: filling one and emptying one.
//
// As at the root of this crate, each call asks first what refuses it and writes one place only where nothing does. A set names ports of the mission
// that are set up while it is written; a port is never emptied and never given to another mission, so they stay so. Emptying needs no board.
ghost use Rattle.std.specs.Prelude.{◌≡◌, length};
ghost use Rattle.checks.specs.Order.{first_of, number_in};
ghost use Rattle.sets.specs.Limits.{group_places, path_places};
ghost use Rattle.state.specs.Seen.{seated, on_mission, on_seated};
ghost use Rattle.state.specs.Layout.{board_words, decode_board, mission_words, decode};
ghost use Rattle.refusals.specs.Lists.{group_checks, path_checks, clear_checks};
ghost use Rattle.adjust.specs.Settled.{settled_group, settled_path, cleared_group, cleared_path};

use address::{Address, PathAddress};
use checks::{Check, Refusal};
use records::{Group, PathPlace};
use state::{BoardWords, MissionWords};

// Fills a group place.
pub fn set_group(
    board: &BoardWords,
    mission: &mut MissionWords,
    place: u32,
    address: Address,
    send: u32,
    subscribed: u32,
) -> Result<(), Refusal>
    ensures answer { number_in result
        ≡ first_of (group_checks (seated (decode_board board.now) (decode mission.old)) place address send subscribed) }
    ensures left { decode mission.new
        ≡ on_seated (decode_board board.now) (λ r. settled_group r place address send subscribed) (decode mission.old) }
{
    refusals::groups_and_paths::group_refusal(board, mission, place, address, send, subscribed)?;
    let x = Group {
        filled: 1,
        address,
        send,
        subscribed,
    };
    state_places::put_group(mission, place as usize, x);
    Ok(())
}

// Fills a path place.
pub fn set_path(
    board: &BoardWords,
    mission: &mut MissionWords,
    place: u32,
    path: PathAddress,
    send: u32,
    here: u32,
) -> Result<(), Refusal>
    ensures answer { number_in result
        ≡ first_of (path_checks (seated (decode_board board.now) (decode mission.old)) place path send here) }
    ensures left { decode mission.new
        ≡ on_seated (decode_board board.now) (λ r. settled_path r place path send here) (decode mission.old) }
{
    refusals::groups_and_paths::path_refusal(board, mission, place, path, send, here)?;
    let x = PathPlace {
        filled: 1,
        path,
        send,
        here,
    };
    state_places::put_path(mission, place as usize, x);
    Ok(())
}

// Empties a group place.
pub fn clear_group(mission: &mut MissionWords, place: u32) -> Result<(), Refusal>
    ensures answer { number_in result ≡ first_of (clear_checks place group_places) }
    ensures left { decode mission.new ≡ on_mission (λ m. cleared_group m place) (decode mission.old) }
{
    let Check::Passed = settings::check_place(place, sets::GROUPS) else {
        return Err(Refusal::NoPlace);
    };
    let x = Group {
        filled: 0,
        address: Address(0),
        send: 0,
        subscribed: 0,
    };
    state_places::put_group(mission, place as usize, x);
    Ok(())
}

// Empties a path place.
pub fn clear_path(mission: &mut MissionWords, place: u32) -> Result<(), Refusal>
    ensures answer { number_in result ≡ first_of (clear_checks place path_places) }
    ensures left { decode mission.new ≡ on_mission (λ m. cleared_path m place) (decode mission.old) }
{
    let Check::Passed = settings::check_place(place, sets::PATHS) else {
        return Err(Refusal::NoPlace);
    };
    let x = PathPlace {
        filled: 0,
        path: PathAddress(0),
        send: 0,
        here: 0,
    };
    state_places::put_path(mission, place as usize, x);
    Ok(())
}
