// Whether another place of the mission holds the same entry, refusal 23 of a group and of a path.
//
// Page 01 lets no two places hold the same group address or the same path address, and allows a place to be
// written over itself. So each search looks at every place but the one that is written, and an empty place holds nothing. A state that
// no call leaves may hold an entry twice: any other place that has it refuses.
ghost use Rattle.std.specs.Prelude.{◌≡◌, ◌<◌, length};
ghost use Rattle.checks.specs.Order.{check_of};
ghost use Rattle.sets.specs.Limits.{group_places, path_places};
ghost use Rattle.state.specs.Layout.{mission_words, decode};
ghost use Rattle.refusals.specs.Elsewhere.{other_group, other_path, group_elsewhere, path_elsewhere};

use address::{Address, PathAddress};
use checks::Check;
use sets::indexes::{GROUPS, PATHS};
use state::MissionWords;

// Place i is not the one that is written, and holds the group address.
fn other_group(mission: &MissionWords, place: usize, a: Address, i: usize) -> bool
    requires { i < group_places }
    ensures { result ≡ other_group (decode mission.now).mission place a i }
{
    if i == place {
        return false;
    }
    records::holds_group(state_places::group_of(mission, i), a)
}

// Refusal 23 of a group.
pub fn check_other_groups(mission: &MissionWords, place: usize, a: Address) -> Check
    ensures { result ≡ check_of (group_elsewhere (decode mission.now).mission place a) }
{
    for i in 0..GROUPS {
        if other_group(mission, place, a, i) {
            return Check::Failed;
        }
    }
    Check::Passed
}

// Place i is not the one that is written, and holds the path address.
fn other_path(mission: &MissionWords, place: usize, p: PathAddress, i: usize) -> bool
    requires { i < path_places }
    ensures { result ≡ other_path (decode mission.now).mission place p i }
{
    if i == place {
        return false;
    }
    records::holds_path(state_places::path_of(mission, i), p)
}

// Refusal 23 of a path.
pub fn check_other_paths(mission: &MissionWords, place: usize, p: PathAddress) -> Check
    ensures { result ≡ check_of (path_elsewhere (decode mission.now).mission place p) }
{
    for i in 0..PATHS {
        if other_path(mission, place, p, i) {
            return Check::Failed;
        }
    }
    Check::Passed
}
