// The counters that a reply to an echo request moves.
//
// A reply that is made counts in npOutRequests, whether it goes or not, and never in npForwDatagrams; one that does not go counts by its number besides, as a
// datagram does that is to be sent on, and each copy that was dropped by itself. The awkward case is no reply, which counts nothing.
ghost use Rattle.std.specs.Prelude.{◌≡◌, length};
ghost use Rattle.state.specs.Seen.{on_counters};
ghost use Rattle.state.specs.Layout.{mission_words, decode};
ghost use Rattle.tally.specs.Tally.{made_counter, unsent_counter, counted_all, reply_moves};

use state::MissionWords;
use verdict::{Onward, Ruling};

// npOutRequests for a reply that was made, whether it goes or not.
fn made_counter(onward: Onward) -> Option<u32>
    ensures { result ≡ made_counter onward }
{
    match onward {
        Onward::NotAsked => None,
        Onward::SentOn => Some(17),
        Onward::Refused(_) => Some(17),
    }
}

// The number's for one that does not go.
fn unsent_counter(onward: Onward) -> Option<u32>
    ensures { result ≡ unsent_counter onward }
{
    match onward {
        Onward::NotAsked => None,
        Onward::SentOn => None,
        Onward::Refused(obstacle) => crate::counter_for(obstacle.into()),
    }
}

// All that a reply counts.
pub fn count_reply(mission: &mut MissionWords, ruling: Ruling)
    ensures { decode mission.new ≡ on_counters (λ l. counted_all l (reply_moves ruling)) (decode mission.old) }
{
    let dropped = crate::ports_in(ruling.dropped);
    crate::count_at(mission, made_counter(ruling.onward), 1);
    crate::count_at(mission, unsent_counter(ruling.onward), 1);
    crate::count_at(mission, crate::discard_counter(ruling.dropped), dropped);
}
