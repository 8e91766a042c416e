// The places of groups and paths, as a datagram asks for them.
//
// Group and path addresses are matched exactly and differ from place to place, so that at most one place holds an address; what is
// found is told to the verdict as the ports to send to, and whether this node is meant too. The places are a mission's own: what they say
// is said for any board. The awkward case is a state that no history leaves, with one address in two places: the lower place holds.
#![tactic(auto)]

pub mod for_target;

ghost use Rattle.std.specs.Prelude.{◌≡◌, length};
ghost use Rattle.state.specs.Seen.{Board, seated};
ghost use Rattle.state.specs.Layout.{mission_words, decode};
ghost use Rattle.lookup.specs.Lookup.{group_place, path_place};

use address::{Address, PathAddress};
use sets::indexes::{GROUPS, PATHS};
use state::MissionWords;
use verdict::Place;

// What the place of a group says; `arrival` is the arrival port as a set.
pub fn group_place(mission: &MissionWords, a: Address, arrival: u32) -> Option<Place>
    ensures { (b : Board) → result ≡ group_place (seated b (decode mission.now)) a arrival }
{
    for i in 0..GROUPS {
        let g = state_places::group_of(mission, i);
        if records::holds_group(g, a) {
            return Some(Place {
                send: g.send,
                here: g.subscribed & arrival,
            });
        }
    }
    None
}

// What the place of a path says.
pub fn path_place(mission: &MissionWords, p: PathAddress) -> Option<Place>
    ensures { (b : Board) → result ≡ path_place (seated b (decode mission.now)) p }
{
    for i in 0..PATHS {
        let x = state_places::path_of(mission, i);
        if records::holds_path(x, p) {
            return Some(Place {
                send: x.send,
                here: x.here,
            });
        }
    }
    None
}
