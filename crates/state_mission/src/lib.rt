// A mission's state in lent words: its number, its counters, and a fresh state.
//
// The caller lends the whole state, 732 words, and each function works on the words of one part, so that nothing is copied that is not
// asked for. The crates `state_places`, `state_queues` and `state_pairs` do the same for groups and paths, for queues, and for what is
// remembered of floods. Each promise is over `decode` alone: above these four nobody sees a word. What is required is the length and a number in range, which the calls from C have tested. No
// state is bad: any 732 words hold some record in each place, and any number; one over 1 is no mission's, and such a mission owns no port.
#![tactic(auto)]

ghost use Rattle.std.specs.Prelude.{◌≡◌, ◌<◌, length};
ghost use Rattle.sets.specs.Limits.{counter_count};
ghost use Rattle.state.specs.Layout.{mission_words, decode};
ghost use Rattle.state.specs.Relay.{counter_in, added};
ghost use Rattle.state.specs.Seen.{fresh_state, on_counters};

use state::{MISSION_WORDS, MissionWords};

// Where the sections begin.
const NUMBER_AT: usize = 0;

const COUNTERS_AT: usize = 393;

// The mission's number.
pub fn number_of(mission: &MissionWords) -> u32
    ensures { result ≡ (decode mission.now).number }
{
    mission[NUMBER_AT]
}

// The counters in their order, npInReceives first.
pub fn counter_of(mission: &MissionWords, i: usize) -> u32
    requires { i < counter_count }
    ensures { result ≡ counter_in (decode mission.now).counters i }
{
    mission[COUNTERS_AT + i]
}

// n more at counter i, modulo 2^32.
pub fn add_count(mission: &mut MissionWords, i: usize, n: u32)
    requires { i < counter_count }
    ensures { decode mission.new ≡ on_counters (λ l. added l i n) (decode mission.old) }
{
    let at = COUNTERS_AT + i;
    mission[at] = std::num::wrapping_add_u32(mission[at], n);
}

// The state of a fresh mission of this number, whatever stood there.
pub fn clear_mission(mission: &mut MissionWords, number: u32)
    ensures { decode mission.new ≡ fresh_state number }
{
    for i in 0..MISSION_WORDS {
        mission[i] = 0;
    }
    mission[NUMBER_AT] = number;
}
