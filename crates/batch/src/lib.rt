// A batch of datagrams, heard one after the other: all of it but the list of routes, which is lent to none of these functions.
//
// The exported call (crate harpjuniper_batch) makes a plan, and then for each item asks, scans the list and finishes. The plan says whether the whole
// call is refused, by 21 or 27, before anything is done or counted; else how many items there are, and the names of the board's ports, which no item
// changes and which are looked at once. An item is asked about and finished by what one datagram is (crate relay), on its own stretch of octets and
// of the output, so that there is no second rule.
//
// The awkward cases are lengths whose sum would pass what a word holds: they are taken from the octets lent one by one, and never added up; and an
// item that is refused, which is answered like any other, and the next goes on.
#![tactic(auto)]

ghost use Rattle.std.specs.Prelude.{◌≡◌, ltb, length};
ghost use Rattle.checks.specs.Order.{first_of};
ghost use Rattle.batch.specs.Items.{start_of, many_checks};
ghost use Rattle.batch.specs.Turn.{
  begun_progress,
  NamesIn,
  Planned,
  Askable,
  Asks,
  Finishable,
  Finishes,
};

use judge::Asked;
use listing::Scan;
use state::{BoardWords, MissionWords};
use survey::names::Names;

// The most items of a batch.
pub const ITEMS: usize = 64;

// What is known before the first item: the refusal of the whole call, or 0; how many items are heard; and the names of the ports.
#[derive(Clone, Copy)]
pub struct Plan {
    pub refusal: u32,
    pub items: usize,
    pub names: Names,
}

// Where the next item's octets begin.
#[derive(Clone, Copy)]
pub struct Progress {
    pub from: usize,
}

// Whether the lengths sum to more than so many octets.
fn sum_passes(lengths: &[u32], octets: usize) -> bool
    ensures { result ≡ ltb octets (start_of lengths.now (length lengths.now)) }
{
    let mut left = octets;
    for length in lengths {
        let n = *length as usize;
        if left < n {
            return true;
        }
        left -= n;
    }
    false
}

// What refuses the whole call: 21 or 27, and 0 for nothing.
fn refusal_by(
    lengths: &[u32],
    routes: usize,
    ports: usize,
    slots: usize,
    seconds: usize,
    octets: usize,
    answers: usize,
    output: usize,
) -> u32
    ensures { result ≡ first_of (many_checks lengths.now routes ports slots seconds octets answers output) }
{
    let items = lengths.len();
    if (sets::ROUTES as usize) < routes {
        return 21;
    }
    if ports != items {
        return 27;
    }
    if slots != items {
        return 27;
    }
    if seconds != items {
        return 27;
    }
    if answers != items {
        return 27;
    }
    if ITEMS < items {
        return 27;
    }
    if sum_passes(lengths, octets) {
        return 27;
    }
    if output < judge::OUTPUT_ROOM * items {
        return 27;
    }
    0
}

// The names of the mission's ports; none where the words are of the wrong number.
fn names_in(board: &[u32], mission: &[u32]) -> Names
    ensures { NamesIn board.now mission.now result }
{
    let Ok(board) = <&BoardWords>::try_from(board) else {
        return survey::names::no_names();
    };
    let Ok(mission) = <&MissionWords>::try_from(mission) else {
        return survey::names::no_names();
    };
    survey::names::names_of(board, state_mission::number_of(mission))
}

// What is known before the first item.
pub fn planned(
    board: &[u32],
    mission: &[u32],
    lengths: &[u32],
    routes: usize,
    ports: usize,
    slots: usize,
    seconds: usize,
    octets: usize,
    answers: usize,
    output: usize,
) -> Plan
    ensures { Planned board.now mission.now lengths.now routes ports slots seconds octets answers output result }
{
    let refusal = refusal_by(
        lengths, routes, ports, slots, seconds, octets, answers, output,
    );
    if refusal != 0 {
        return Plan {
            refusal,
            items: 0,
            names: survey::names::no_names(),
        };
    }
    Plan {
        refusal: 0,
        items: lengths.len(),
        names: names_in(board, mission),
    }
}

// How many items are heard.
pub fn items_of(p: Plan) -> usize
    ensures { result ≡ p.items }
{
    p.items
}

// What the whole call answers.
pub fn refusal_of(p: Plan) -> u32
    ensures { result ≡ p.refusal }
{
    p.refusal
}

// Before the first item.
pub fn start() -> Progress
    ensures { result ≡ begun_progress }
{
    Progress { from: 0 }
}

// What is known of item i before the search.
pub fn ask(
    board: &[u32],
    mission: &[u32],
    routes: usize,
    lengths: &[u32],
    ports: &[u32],
    seconds: &[u32],
    octets: &[u8],
    i: usize,
    at: Progress,
    p: Plan,
) -> Asked
    requires { Askable board.now mission.now lengths.now ports.now seconds.now octets.now i at p }
    ensures { Asks board.now mission.now routes lengths.now ports.now seconds.now octets.now i result }
{
    let from = at.from;
    let to = from + lengths[i] as usize;
    let second = seconds[i];
    let names = p.names;
    relay::before_named(
        board,
        mission,
        routes,
        ports[i],
        second,
        &octets[from..to],
        judge::OUTPUT_ROOM,
        names,
    )
}

// Item i carried out, with what the scan found: its answer and its output are written. A refusal is told apart first, before its octets and its room
// are looked at: then the compiler keeps nothing for it but its number.
pub fn finish(
    board: &[u32],
    mission: &mut [u32],
    lengths: &[u32],
    slots: &[u16],
    seconds: &[u32],
    octets: &[u8],
    answers: &mut [u64],
    output: &mut [u8],
    i: usize,
    at: Progress,
    a: Asked,
    s: Scan,
) -> Progress
    requires { Finishable board.now mission.old lengths.now slots.now seconds.now octets.now answers.old output.old i at a }
    ensures { Finishes board.now mission.old lengths.now slots.now seconds.now octets.now
        answers.old output.old i at a s result mission.new answers.new output.new }
{
    let refusal = a.refusal;
    let from = at.from;
    if refusal != 0 {
        answers[i] = relay::refuse(mission, refusal, seconds[i]);
        return Progress {
            from: from + lengths[i] as usize,
        };
    }
    let to = from + lengths[i] as usize;
    let begins = judge::OUTPUT_ROOM * i;
    let ends = begins + judge::OUTPUT_ROOM;
    answers[i] = relay::after(
        board,
        mission,
        slots[i],
        seconds[i],
        &octets[from..to],
        &mut output[begins..ends],
        a,
        s,
    );
    Progress { from: to }
}
