// What a mission remembers of flooded datagrams: which of them it has sent on, or tried to.
//
// A flooded datagram goes out by every other port, so that copies of it come back by many ways. A router keeps the pair of source and timestamp of each
// that it would send on, in one of 64 places, whatever becomes of its copies, and sends none on whose pair it holds: so a flood dies out. A sweep frees the places of pairs that are older than
// the lifetime that the operator has set; nothing else does. Each pair is kept with the second in which it came, which the caller gives, and seconds never
// fall.
//
// One walk over the places answers both questions, whether the pair is held and which place is free. The awkward cases: what is for this node alone is not
// sent on, so no pair is looked up for it or kept; and in words that no call wrote, a pair may be younger than the sweep, which is then as if it had no age.
#![tactic(auto)]

ghost use Rattle.std.specs.Prelude.{◌≡◌, suc, ◌<◌, length, eqb};
ghost use Rattle.checks.specs.Order.{pick, first_of, number_in};
ghost use Rattle.sets.specs.Limits.{pair_places};
ghost use Rattle.records.specs.Held.{is_free};
ghost use Rattle.state.specs.Layout.{mission_words, decode};
ghost use Rattle.state.specs.Seen.{on_memory};
ghost use Rattle.meaning.specs.Flood.{pair_of};
ghost use Rattle.floods.specs.Memory.{sought_pair, unless_here, flood_of, kept, remembering, InPlaces};
ghost use Rattle.floods.specs.Sweep.{is_old, swept_at, swept_below, sweep_checks, swept_memory};

use address::Address;
use checks::Refusal;
use header::Fields;
use records::{Pair, PairPlace};
use sets::indexes::PAIRS;
use state::MissionWords;
use verdict::{Flood, Target};

// The lowest free place of the first i + 1, by that of the first i, which is i where there is none.
fn free_next(free: usize, i: usize, x: PairPlace) -> usize
    requires { i < pair_places }
    ensures { result ≡ pick (eqb free i) (pick (is_free x) i (suc i)) free }
{
    if free != i {
        return free;
    }
    if x.pair.format == 0 {
        return i;
    }
    i + 1
}

// What the pairs say of one more: it is held, it gets the lowest free place, or there is none.
fn seek(mission: &MissionWords, q: Pair) -> Flood
    ensures { result ≡ sought_pair (decode mission.now).memory q }
{
    let mut free = 0;
    for i in 0..PAIRS {
        let x = state_pairs::place_of(mission, i);
        if records::holds_pair(x, q) {
            return Flood::Unsent;
        }
        free = free_next(free, i, x);
    }
    if PAIRS <= free {
        return Flood::Full;
    }
    Flood::New(free as u32)
}

// The same of a datagram that came in by the port of this address, unless it is for this node alone.
fn seek_for(mission: &MissionWords, t: Target, port: Address, f: Fields) -> Flood
    ensures { result ≡ unless_here t (sought_pair (decode mission.now).memory (pair_of port.0 f)) }
{
    match t {
        Target::Here => Flood::Unsent,
        Target::Broadcast => seek(mission, meaning::flood::pair_of(port, f)),
        Target::Group => seek(mission, meaning::flood::pair_of(port, f)),
        Target::Path => Flood::Plain,
        Target::Route => seek(mission, meaning::flood::pair_of(port, f)),
    }
}

// What the pairs say of a datagram, where it is flooded and this is a router.
pub fn flood_of(mission: &MissionWords, router: u32, t: Target, port: Address, f: Fields) -> Flood
    ensures { result ≡ flood_of router t (decode mission.now).memory port.0 f }
{
    if !meaning::flood::is_flooded(f) {
        return Flood::Plain;
    }
    if router == 0 {
        return Flood::Plain;
    }
    seek_for(mission, t, port, f)
}

// The pair of a datagram kept in its place with its second, where it is new. No other datagram pays for making a pair.
fn keep(mission: &mut MissionWords, f: Flood, port: Address, fields: Fields, second: u32)
    requires { InPlaces f }
    ensures { decode mission.new ≡ on_memory (kept f (pair_of port.0 fields) second) (decode mission.old) }
{
    let Flood::New(place) = f else {
        return;
    };
    let pair = meaning::flood::pair_of(port, fields);
    state_pairs::put_pair(mission, place as usize, PairPlace { pair, second });
}

// The second accepted, and the pair of a datagram kept where it is new.
pub fn remember(mission: &mut MissionWords, f: Flood, port: Address, fields: Fields, second: u32)
    requires { InPlaces f }
    ensures { decode mission.new ≡ on_memory (remembering f (pair_of port.0 fields) second) (decode mission.old) }
{
    state_pairs::put_last(mission, second);
    keep(mission, f, port, fields, second);
}

// Whether a sweep at this second frees a place.
fn is_old(x: PairPlace, lifetime: u32, second: u32) -> bool
    ensures { result ≡ is_old lifetime second x }
{
    if x.pair.format == 0 {
        return false;
    }
    if second < x.second {
        return false;
    }
    lifetime < second - x.second
}

fn sweep_at(mission: &mut MissionWords, i: usize, lifetime: u32, second: u32)
    requires { i < pair_places }
    ensures { decode mission.new ≡ on_memory (λ k. swept_at lifetime second k i) (decode mission.old) }
{
    let x = state_pairs::place_of(mission, i);
    if !is_old(x, lifetime, second) {
        return;
    }
    state_pairs::put_pair(
        mission,
        i,
        PairPlace {
            pair: Pair {
                format: 0,
                source: Address(0),
                upper: 0,
                lower: 0,
            },
            second: 0,
        },
    );
}

// Each place in turn.
fn sweep_all(mission: &mut MissionWords, lifetime: u32, second: u32)
    ensures { decode mission.new ≡ on_memory (λ k. swept_below lifetime second k pair_places) (decode mission.old) }
{
    for i in 0..PAIRS {
        sweep_at(mission, i, lifetime, second);
    }
}

// A sweep at a second: refused where that is past, else the second is accepted, and what is too old is freed.
pub fn sweep(mission: &mut MissionWords, lifetime: u32, second: u32) -> Result<(), Refusal>
    ensures value { number_in result ≡ first_of (sweep_checks (decode mission.old).memory second) }
    ensures mission_after { decode mission.new ≡ on_memory (swept_memory lifetime second) (decode mission.old) }
{
    if second < state_pairs::last_of(mission) {
        return Err(Refusal::SecondPast);
    }
    state_pairs::put_last(mission, second);
    sweep_all(mission, lifetime, second);
    Ok(())
}
