// The counters that an ending moves; those of a reply are in reply.rt.
//
// There are eighteen of each mission, and each end of a call but four counts in the first. A refusal's number has its counter by page 01's table; the local
// half counts a delivery or an unknown TP-ID; the onward half counts a datagram sent on, once however many ports took it, or its number;
// and each copy that was dropped counts by itself. A counter is told by its place among the eighteen, an `Option`: what does not count has none, and moves nothing.
//
// The awkward case is 15, every queue full: the number itself has no counter, its copies have.
#![tactic(auto)]

pub mod reply;

ghost use Rattle.std.specs.Prelude.{◌≡◌, length};
ghost use Rattle.address.specs.Mask.{ones_of};
ghost use Rattle.state.specs.Seen.{on_counters};
ghost use Rattle.state.specs.Layout.{mission_words, decode};
ghost use Rattle.tally.specs.Tally.{
  counter_for,
  receipt_counter,
  local_counter,
  onward_counter,
  discard_counter,
  Inside,
  counted_at,
  counted_all,
  ruling_moves,
  moves_of,
};

use judge::Ending;
use state::MissionWords;
use verdict::{Local, Onward, Ruling};

// The counter of a refusal's number.
fn counter_for(number: u32) -> Option<u32>
    ensures { result ≡ counter_for number }
{
    match number {
        1 => Some(1),
        2 => Some(2),
        3 => Some(1),
        4 => Some(3),
        5 => Some(4),
        6 => Some(3),
        7 => Some(3),
        8 => Some(5),
        9 => Some(6),
        10 => Some(9),
        11 => Some(11),
        12 => Some(11),
        13 => Some(13),
        14 => Some(14),
        26 => Some(7),
        28 => Some(15),
        30 => Some(16),
        _ => None,
    }
}

// npInReceives, but for a call that 21, 16, 17 or 29 ended.
fn receipt_counter(refusal: u32) -> Option<u32>
    ensures { result ≡ receipt_counter refusal }
{
    match refusal {
        16 | 17 | 21 | 29 => None,
        _ => Some(0),
    }
}

// npInDelivers for a delivery, the number's for 26.
fn local_counter(local: Local) -> Option<u32>
    ensures { result ≡ local_counter local }
{
    match local {
        Local::No => None,
        Local::Delivered => Some(8),
        Local::Unknown => counter_for(26),
    }
}

// npForwDatagrams for a datagram sent on, the number's for an obstacle.
fn onward_counter(onward: Onward) -> Option<u32>
    ensures { result ≡ onward_counter onward }
{
    match onward {
        Onward::NotAsked => None,
        Onward::SentOn => Some(10),
        Onward::Refused(obstacle) => counter_for(obstacle.into()),
    }
}

// npOutDiscards, where a copy was dropped.
fn discard_counter(dropped: u32) -> Option<u32>
    ensures { result ≡ discard_counter dropped }
{
    (dropped != 0).then_some(12)
}

// How many ports a set has.
fn ports_in(set: u32) -> u32
    ensures { result ≡ ones_of set }
{
    u32::count_ones(set)
}

// n more at a counter, where there is one.
fn count_at(mission: &mut MissionWords, counter: Option<u32>, n: u32)
    requires { Inside counter }
    ensures { decode mission.new ≡ on_counters (λ l. counted_at l counter n) (decode mission.old) }
{
    if let Some(place) = counter {
        state_mission::add_count(mission, place as usize, n);
    }
}

// What a ruling counts.
fn count_ruling(mission: &mut MissionWords, ruling: Ruling)
    ensures { decode mission.new ≡ on_counters (λ l. counted_all l (ruling_moves ruling)) (decode mission.old) }
{
    let dropped = ports_in(ruling.dropped);
    count_at(mission, local_counter(ruling.local), 1);
    count_at(mission, onward_counter(ruling.onward), 1);
    count_at(mission, discard_counter(ruling.dropped), dropped);
}

// All that an ending counts.
pub fn count(mission: &mut MissionWords, e: Ending)
    ensures { decode mission.new ≡ on_counters (λ l. counted_all l (moves_of e)) (decode mission.old) }
{
    count_at(mission, receipt_counter(e.refusal), 1);
    count_at(mission, counter_for(e.refusal), 1);
    count_ruling(mission, e.ruling);
}
