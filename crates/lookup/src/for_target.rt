// Where a datagram for an address may go on: the place of its group.
//
// A place is looked up only for a group, so that a datagram pays for no more than its own line. What is not looked up is answered as
// none, and the line of such a target does not ask for it. The route of an address is searched in the list that the call is lent, and not
// here; which route that is stands in the same definitions.
//
// The awkward case is an address of one of our own ports, or a broadcast: a place or a route may well have it, and none is looked for.
ghost use Rattle.std.specs.Prelude.{◌≡◌, length};
ghost use Rattle.state.specs.Seen.{Board, seated};
ghost use Rattle.state.specs.Layout.{mission_words, decode};
ghost use Rattle.lookup.specs.ForTarget.{place_for};

use address::Address;
use state::MissionWords;
use verdict::{Place, Target};

// What the place of a group says, for a group alone.
pub fn place_for(mission: &MissionWords, t: Target, a: Address, arrival: u32) -> Option<Place>
    ensures { (b : Board) → result ≡ place_for (seated b (decode mission.now)) t a arrival }
{
    match t {
        Target::Group => crate::group_place(mission, a, arrival),
        Target::Here | Target::Broadcast | Target::Path | Target::Route => None,
    }
}
