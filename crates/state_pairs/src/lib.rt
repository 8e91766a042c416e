// A mission's state in lent words: the last accepted second, and the places of the pairs.
//
// As in the crate `state_mission`: the caller lends the whole state, each function works on the words of one part, and each promise is over
// `decode` alone. A free place is a record too, the fresh one where a sweep freed it; in words that no call wrote it may have other numbers, and
// is free all the same where its format is 0.
#![tactic(auto)]

ghost use Rattle.std.specs.Prelude.{◌≡◌, ◌<◌, length};
ghost use Rattle.sets.specs.Limits.{pair_places};
ghost use Rattle.state.specs.Layout.{mission_words, decode, pair_place_of, pair_words};
ghost use Rattle.state.specs.Relay.{pair_at, put_last, put_pair};
ghost use Rattle.state.specs.Seen.{on_memory};

use address::Address;
use records::{Pair, PairPlace};
use state::MissionWords;

// Where the sections begin.
const LAST_AT: usize = 411;

const PAIRS_AT: usize = 412;

const PAIR_WORDS: usize = 5;

// The last second that was accepted.
pub fn last_of(mission: &MissionWords) -> u32
    ensures { result ≡ (decode mission.now).memory.last }
{
    mission[LAST_AT]
}

pub fn put_last(mission: &mut MissionWords, second: u32)
    ensures { decode mission.new ≡ on_memory (λ k. put_last k second) (decode mission.old) }
{
    mission[LAST_AT] = second;
}

fn read_pair(s: &[u32]) -> PairPlace
    requires { length s.now ≡ 5 }
    ensures { result ≡ pair_place_of s.now }
{
    PairPlace {
        pair: Pair {
            format: s[0],
            source: Address(s[1]),
            upper: s[2],
            lower: s[3],
        },
        second: s[4],
    }
}

fn write_pair(s: &mut [u32], x: PairPlace)
    requires { length s.old ≡ 5 }
    ensures { s.new ≡ pair_words x }
{
    s[0] = x.pair.format;
    s[1] = x.pair.source.0;
    s[2] = x.pair.upper;
    s[3] = x.pair.lower;
    s[4] = x.second;
}

pub fn place_of(mission: &MissionWords, i: usize) -> PairPlace
    requires { i < pair_places }
    ensures { result ≡ pair_at (decode mission.now).memory i }
{
    let from = PAIRS_AT + i * PAIR_WORDS;
    read_pair(&mission[from..from + PAIR_WORDS])
}

pub fn put_pair(mission: &mut MissionWords, i: usize, x: PairPlace)
    requires { i < pair_places }
    ensures { decode mission.new ≡ on_memory (λ k. put_pair k i x) (decode mission.old) }
{
    let from = PAIRS_AT + i * PAIR_WORDS;
    write_pair(&mut mission[from..from + PAIR_WORDS], x);
}
