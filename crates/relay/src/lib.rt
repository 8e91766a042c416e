// Receiving a datagram.
//
// To receive is to judge, to search the routes and then to do. Judging reads and writes nothing, `before`; what is to be sought in the list of
// routes, if anything, is a query by value, `query_of`; with what the scan of the list found, the verdict is finished, counted, entered in the
// queues of the ports that took a copy, a header is written for each of them, and the second and the pair of a flooded datagram are remembered, `after`. The list
// itself is lent to none of the three.
//
// The awkward case is words of the wrong number, which hold no relay, and a list that is too long: both are refusals like others, but
// nothing is counted. Nor is anything by 16, 17 and 29 otherwise; every other refusal counts, and then the words are of the right number. The output is written
// only where a port took an entry, a stretch for each such port, and then the header was read and there was room, which the verdict has tested.
#![tactic(auto)]

pub mod outgoing;

ghost use Rattle.std.specs.Prelude.{◌≡◌, List, ℕ, ◌≤◌, ◌&&◌, eqb, length};
ghost use Rattle.address.specs.declared.Slot.{Slot};
ghost use Rattle.header.specs.Form.{places_of};
ghost use Rattle.header.specs.Onward.{renewal_of};
ghost use Rattle.header.specs.Read.{header_of};
ghost use Rattle.next_leg.specs.Leg.{Sound};
ghost use Rattle.state.specs.Seen.{Board};
ghost use Rattle.state.specs.Layout.{board_words, mission_words, decode};
ghost use Rattle.lent_state.specs.View.{lent};
ghost use Rattle.answers.specs.Answers.{receive_number};
ghost use Rattle.judge.specs.Asked.{route_sought, unless_flood};
ghost use Rattle.judge.specs.Ending.{output_room, refused_by};
ghost use Rattle.relay.specs.Outgoing.{sent_output};
ghost use Rattle.relay.specs.Received.{received_state};
ghost use Rattle.relay.specs.Split.{
  Naming,
  asked_of,
  best_if,
  query_of,
  way_in,
  Counted,
  words_refused,
  answer_after,
  words_after,
  output_after,
  Following,
};

use address::Slot;
use header::{Header, Renewal};
use judge::{Asked, Ending};
use listing::{Query, Scan, Sought};
use queue::Entry;
use state::{BoardWords, MISSION_WORDS, MissionWords};
use survey::names::Names;
use verdict::{Flood, Target, Way};

// What is known before the search, where so many routes are lent, and with these names of the ports.
pub fn before_named(
    board: &[u32],
    mission: &[u32],
    count: usize,
    port: u32,
    second: u32,
    octets: &[u8],
    room: usize,
    names: Names,
) -> Asked
    requires { Naming board.now mission.now names }
    ensures { result ≡ asked_of board.now mission.now count port second octets.now room }
{
    if (sets::ROUTES as usize) < count {
        return judge::refused(21);
    }
    let Ok(board) = <&BoardWords>::try_from(board) else {
        return judge::refused(16);
    };
    let Ok(mission) = <&MissionWords>::try_from(mission) else {
        return judge::refused(16);
    };
    judge::judge(board, mission, port, second, octets, room, names)
}

// The same of a datagram by itself, for which no names were gathered.
pub fn before(
    board: &[u32],
    mission: &[u32],
    count: usize,
    port: u32,
    second: u32,
    octets: &[u8],
    room: usize,
) -> Asked
    ensures { result ≡ asked_of board.now mission.now count port second octets.now room }
{
    before_named(
        board,
        mission,
        count,
        port,
        second,
        octets,
        room,
        survey::names::no_names(),
    )
}

// Whether the route line decides, on a router.
fn is_route_sought(target: Target, router: u32) -> bool
    ensures { result ≡ route_sought target router }
{
    match target {
        Target::Here | Target::Broadcast | Target::Group | Target::Path => false,
        Target::Route => router != 0,
    }
}

// And none by a datagram that is flooded.
fn is_sought_unless_flood(flood: Flood, sought: bool) -> bool
    ensures { result ≡ unless_flood flood sought }
{
    match flood {
        Flood::Plain => sought,
        Flood::Unsent | Flood::Full | Flood::New(_) => false,
    }
}

// Whether a route is to be searched: nothing refuses, and the route line decides.
fn is_searched(refusal: u32, target: Target, router: u32, flood: Flood) -> bool
    ensures { result ≡ (eqb refusal 0 && unless_flood flood (route_sought target router)) }
{
    refusal == 0 && is_sought_unless_flood(flood, is_route_sought(target, router))
}

// The best route is sought, or nothing is.
pub fn best_if(searched: bool) -> Sought
    ensures { result ≡ best_if searched }
{
    if searched {
        Sought::Best
    } else {
        Sought::Nothing
    }
}

// What is asked of the list of routes.
pub fn query_of(a: Asked) -> Query
    ensures { result ≡ query_of a }
{
    let target = a.target;
    let case = a.case;
    let flood = case.flood;
    let destination = a.destination;
    Query {
        refusal: a.refusal,
        sought: best_if(is_searched(a.refusal, target, case.router, flood)),
        address: judge::address_in(destination),
        mask: 0,
        mission: a.number,
        own: a.ready,
    }
}

// The way by the route that was found.
pub fn way_in(s: Scan) -> Option<Way>
    ensures { result ≡ way_in s }
{
    s.found.map(|found| Way {
        port: sets::only_port(found.port),
        code: found.capabilities,
    })
}

// A refusal: counted, and its second accepted, but for 16, 17, 21 and 29.
pub fn refuse(mission: &mut [u32], refusal: u32, second: u32) -> u64
    requires { Counted refusal → length mission.old ≡ mission_words }
    ensures value { result ≡ receive_number (refused_by refusal) }
    ensures by_index { (b : List ℕ) (slot : Slot) → (Counted refusal → length b ≡ board_words)
        → lent mission.new ≡ words_refused b mission.old slot second refusal }
{
    let e = judge::ended_by(refusal);
    let answer = answers::receive_number(e);
    if refusal == 16 {
        return answer;
    }
    if refusal == 17 {
        return answer;
    }
    if refusal == 21 {
        return answer;
    }
    if refusal == 29 {
        return answer;
    }
    let mission = mission.as_mut_array::<MISSION_WORDS>().unwrap();
    tally::count(mission, e);
    state_pairs::put_last(mission, second);
    answer
}

// An ending carried out: counted, entered and sent on.
fn carry_out(
    mission: &mut MissionWords,
    slot: Slot,
    octets: &[u8],
    output: &mut [u8],
    e: Ending,
    header: Header,
    renewal: Renewal,
) -> u64
    requires { (output_room ≤ length output.old)
        × (Sound header × ((header ≡ header_of octets.now) × (((places_of octets.now).size ≤ length octets.now) × (renewal ≡ renewal_of octets.now)))) }
    ensures value { result ≡ receive_number e }
    ensures mission_after { (b : Board) → decode mission.new ≡ received_state b (decode mission.old) slot (decode mission.old).memory e }
    ensures output_after { output.new ≡ sent_output e octets.now output.old }
{
    let took = e.ruling.took;
    let legs = e.legs;
    tally::count(mission, e);
    crate::outgoing::enter_all(
        mission,
        took,
        Entry {
            slot,
            precedence: e.precedence,
        },
    );
    crate::outgoing::send_all(took, legs, header, renewal, octets, output);
    answers::receive_number(e)
}

// What becomes of the octets, with what the scan found; they are known to the caller by the slot.
pub fn after(
    board: &[u32],
    mission: &mut [u32],
    slot: u16,
    second: u32,
    octets: &[u8],
    output: &mut [u8],
    a: Asked,
    s: Scan,
) -> u64
    requires { Following board.now mission.old second octets.now (length output.old) a }
    ensures { (result ≡ answer_after board.now mission.old a s)
        × ((lent mission.new ≡ words_after board.now mission.old slot second a s)
        × (output.new ≡ output_after board.now mission.old octets.now output.old a s)) }
{
    let refusal = a.refusal;
    if refusal != 0 {
        return refuse(mission, refusal, second);
    }
    let header = a.header;
    let fields = header.fields;
    let renewal = a.renewal;
    let arrival = a.arrival;
    let case = a.case;
    let flood = case.flood;
    let board = <&BoardWords>::try_from(board).unwrap();
    let mission = mission.as_mut_array::<MISSION_WORDS>().unwrap();
    let way = way_in(s);
    let e = judge::finishing::finish(board, mission, a, way);
    let answer = carry_out(mission, Slot(slot), octets, output, e, header, renewal);
    floods::remember(mission, flood, arrival, fields, second);
    answer
}
