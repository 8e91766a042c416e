// Answering an echo request.
//
// The call goes as receiving does: `before` judges the request and makes the reply without writing anything, what is sought in the list of routes is a query by
// value, and with what the scan of the list found `after` decides whether the reply goes, counts it, enters it in the queue of its port and writes it. The list
// itself is lent to none of the three. The request is not received here: nothing is counted for it, no second is asked for, and nothing is remembered.
//
// The awkward case is a request that gets no reply: that is no refusal, and nothing at all is counted or written.
#![tactic(auto)]

ghost use Rattle.std.specs.Prelude.{◌≡◌, ◌≢◌, length};
ghost use Rattle.state.specs.Seen.{Board};
ghost use Rattle.state.specs.Layout.{mission_words, decode};
ghost use Rattle.lent_state.specs.View.{lent};
ghost use Rattle.replies.specs.Replied.{no_reply, replied_output, Goes};
ghost use Rattle.answering.specs.Echoed.{replied_state};
ghost use Rattle.answering.specs.Split.{
  answering_in,
  sought_by,
  query_of,
  replied_after,
  number_for,
  words_after,
  output_after,
  Following,
};

use address::Slot;
use listing::{Query, Scan, Sought};
use queue::Entry;
use replies::Answering;
use replies::sending::Replied;
use state::{BoardWords, MISSION_WORDS, MissionWords};
use verdict::{Local, Wish};

// What is known before the search, where so many routes are lent.
pub fn before(
    board: &[u32],
    mission: &[u32],
    count: usize,
    port: u32,
    octets: &[u8],
    room: usize,
) -> Answering
    ensures { result ≡ answering_in board.now mission.now count port octets.now room }
{
    if sets::indexes::ROUTES < count {
        return replies::no_answer(21);
    }
    let Ok(board) = <&BoardWords>::try_from(board) else {
        return replies::no_answer(16);
    };
    let Ok(mission) = <&MissionWords>::try_from(mission) else {
        return replies::no_answer(16);
    };
    replies::answer(board, mission, port, octets, room)
}

// What is sought by the number that says whether a reply is made: nothing by 0, the best route by 1. No reply is made with another number;
// any of these seeks the same entry.
fn sought_by(made: u32) -> Sought
    ensures { result ≡ sought_by made }
{
    match made {
        0 => Sought::Nothing,
        1 => Sought::Best,
        _ => Sought::Same,
    }
}

// What is asked of the list of routes.
pub fn query_of(a: Answering) -> Query
    ensures { result ≡ query_of a }
{
    let destination = a.destination;
    Query {
        refusal: a.refusal,
        sought: sought_by(a.made),
        address: destination.0,
        mask: 0,
        mission: a.number,
        own: a.ready,
    }
}

// A reply carried out: counted, entered and written.
fn carry_out(
    mission: &mut MissionWords,
    slot: Slot,
    octets: &[u8],
    output: &mut [u8],
    a: Answering,
    e: Replied,
) -> u64
    requires { e.ruling.took ≢ 0 → Goes a e octets.now output.old }
    ensures value { result ≡ number_for e }
    ensures mission_after { (b : Board) → decode mission.new ≡ replied_state b (decode mission.old) slot e }
    ensures output_after { output.new ≡ replied_output a e octets.now output.old }
{
    let ruling = e.ruling;
    tally::reply::count_reply(mission, ruling);
    relay::outgoing::enter_all(
        mission,
        ruling.took,
        Entry {
            slot,
            precedence: e.precedence,
        },
    );
    replies::sending::write_reply(a, e, octets, output);
    answers::reply_number(e.refusal, ruling, e.octets)
}

// No reply goes, by a number or by none: nothing is counted or written.
fn pass_over(refusal: u32) -> u64
    ensures { result ≡ number_for (no_reply refusal) }
{
    answers::reply_number(
        refusal,
        verdict::copies::ruling_of(Local::No, Wish::NotAsked, 0),
        0,
    )
}

// What becomes of the reply, with what the scan found; it is known to the caller by the slot.
pub fn after(
    board: &[u32],
    mission: &mut [u32],
    slot: u16,
    octets: &[u8],
    output: &mut [u8],
    a: Answering,
    s: Scan,
) -> u64
    requires { Following board.now mission.old octets.now (length output.old) a }
    ensures { (result ≡ number_for (replied_after board.now mission.old a s (length output.old)))
        × ((lent mission.new ≡ words_after board.now mission.old slot a s (length output.old))
        × (output.new ≡ output_after board.now mission.old octets.now output.old a s (length output.old))) }
{
    if a.made == 0 {
        return pass_over(a.refusal);
    }
    let board = <&BoardWords>::try_from(board).unwrap();
    let mission = mission.as_mut_array::<MISSION_WORDS>().unwrap();
    let e = replies::sending::finish(board, mission, a, relay::way_in(s), output.len());
    carry_out(mission, Slot(slot), octets, output, a, e)
}
