// What the setting of a group or a path is refused for: the tests in page 01's order, as at the root of this crate.
//
// The awkward case is 21: the place, the set to send to and a group's subscribed ports are all refused by it, before the class of the
// address is looked at. A set names ports of the mission alone: one that is set up for the other mission is refused as one that is not set up.
ghost use Rattle.std.specs.Prelude.{◌≡◌, length};
ghost use Rattle.checks.specs.Order.{outcome};
ghost use Rattle.state.specs.Seen.{seated};
ghost use Rattle.state.specs.Layout.{board_words, decode_board, mission_words, decode};
ghost use Rattle.refusals.specs.Ready.{ready_set};
ghost use Rattle.refusals.specs.Lists.{group_refusals, path_refusals};

use address::{Address, PathAddress};
use checks::{Check, Refusal};
use state::{BoardWords, MissionWords};

// The set of the mission's ports that are set up.
fn ready_here(board: &BoardWords, mission: &MissionWords) -> u32
    ensures { result ≡ ready_set (seated (decode_board board.now) (decode mission.now)) }
{
    state_board::ready::ready_ports(board, state_mission::number_of(mission))
}

// Whether this group may stand in that place.
pub fn group_refusal(
    board: &BoardWords,
    mission: &MissionWords,
    place: u32,
    address: Address,
    send: u32,
    subscribed: u32,
) -> Result<(), Refusal>
    ensures { result
        ≡ outcome (group_refusals (seated (decode_board board.now) (decode mission.now)) place address send subscribed) tt }
{
    let Check::Passed = settings::check_place(place, sets::GROUPS) else {
        return Err(Refusal::NoPlace);
    };
    let ready = ready_here(board, mission);
    let Check::Passed = settings::check_set(send, ready) else {
        return Err(Refusal::NoPlace);
    };
    let Check::Passed = settings::check_set(subscribed, ready) else {
        return Err(Refusal::NoPlace);
    };
    let Check::Passed = settings::check_group_class(address) else {
        return Err(Refusal::WrongClass);
    };
    let Check::Passed = crate::same_entry::check_other_groups(mission, place as usize, address)
    else {
        return Err(Refusal::EntryElsewhere);
    };
    Ok(())
}

// Whether this path may stand in that place.
pub fn path_refusal(
    board: &BoardWords,
    mission: &MissionWords,
    place: u32,
    path: PathAddress,
    send: u32,
    here: u32,
) -> Result<(), Refusal>
    ensures { result
        ≡ outcome (path_refusals (seated (decode_board board.now) (decode mission.now)) place path send here) tt }
{
    let Check::Passed = settings::check_place(place, sets::PATHS) else {
        return Err(Refusal::NoPlace);
    };
    let Check::Passed = settings::check_set(send, ready_here(board, mission)) else {
        return Err(Refusal::NoPlace);
    };
    let Check::Passed = settings::check_path_class(path) else {
        return Err(Refusal::WrongClass);
    };
    let Check::Passed = settings::check_flag(here) else {
        return Err(Refusal::CodeOutOfRange);
    };
    let Check::Passed = crate::same_entry::check_other_paths(mission, place as usize, path) else {
        return Err(Refusal::EntryElsewhere);
    };
    Ok(())
}
