// The verdict on a received datagram, from its octets to an ending, in two steps with the search of the routes between them.
//
// The stages stand in page 01's order, with page 02's 29 and 28 among them: the port and the output's room (16, 17), the second (29), the reader (1 to 5), what is carried (8), the domain (7),
// the addresses (6), what a flood needs (28). The first refusal ends the call. Else the destination's target and the place of its group or path are looked up, and all
// that the rest needs is handed on by value, `Asked`: which route is to be searched too, if any. The list of routes is lent to another step.
// With its answer module `finishing` gives the ruling. Nothing is written here: an ending says all that becomes of the datagram, and another
// crate does it. So the same ending can be asked for without being carried out.
//
// The awkward case is a refusal: it has a ruling too, one that delivers nothing, grants nothing and drops nothing, so that whoever carries
// an ending out need not ask whether it is a refusal.
#![tactic(auto)]

pub mod finishing;
pub mod ruling;

ghost use Rattle.std.specs.Prelude.{◌≡◌, length};
ghost use Rattle.checks.specs.Order.{pick};
ghost use Rattle.header.specs.Onward.{found_of};
ghost use Rattle.meaning.specs.Names.{bad_class, bad_path, bad_aim};
ghost use Rattle.meaning.specs.Flood.{unmarked};
ghost use Rattle.state.specs.Seen.{Board, seated};
ghost use Rattle.state.specs.Layout.{decode_board, mission_words, decode};
ghost use Rattle.judge.specs.Ruling.{destination_asked};
ghost use Rattle.judge.specs.Ending.{refused_by};
ghost use Rattle.judge.specs.Asked.{
  NamesSeen,
  no_header,
  refused_asked,
  else_asked,
  refused_looked,
  node_looked,
  path_looked,
  aim_looked,
  aim_asked,
  carried_asked,
  octets_asked,
  datagram_asked,
  address_in,
};

use crate::ruling::Arrival;
use address::{Address, Class, PathAddress, PathForm};
use checks::Check;
use header::{Addresses, Fields, Header, Renewal};
use meaning::Aim;
use next_leg::Legs;
use state::{BoardWords, MissionWords};
use survey::names::Names;
use verdict::{Case, Flood, Local, Onward, Place, Ruling, Target};

// The room that a call has to lend for the headers of all ports.
pub const OUTPUT_ROOM: usize = sets::indexes::PORTS * header::limits::LONGEST_HEADER;

// All that becomes of a datagram: the refusal that ended the call, or 0 and the ruling, the precedence it waits with, its header's own length, and
// the headers of its copies.
#[derive(Clone, Copy)]
pub struct Ending {
    pub refusal: u32,
    pub ruling: Ruling,
    pub precedence: u16,
    pub size: usize,
    pub legs: Legs,
}

// What is known before the search: the refusal that ends the call, or 0 and the target; what the place of a group or a path says; what the rule
// asks of node, arrival port and header; the ports set up; the destination; the mission's number; the precedence; the arrival port's address; the
// header, and where it differs when it is sent on as it came.
#[derive(Clone, Copy)]
pub struct Asked {
    pub refusal: u32,
    pub target: Target,
    pub place: Option<Place>,
    pub case: Case,
    pub ready: u32,
    pub destination: Option<Address>,
    pub number: u32,
    pub precedence: u16,
    pub arrival: Address,
    pub header: Header,
    pub renewal: Renewal,
}

// What is looked up of a destination: the refusal that ends the call, or 0 and the target; what the place of a group or a path says; the ports set
// up. It is looked up apart from the header, which is large: handing that to a function and back costs more than most of what is asked.
#[derive(Clone, Copy)]
pub struct Looked {
    pub refusal: u32,
    pub target: Target,
    pub place: Option<Place>,
    pub ready: u32,
}

// No header.
pub fn no_header() -> Header
    ensures { result ≡ no_header }
{
    let fields = Fields {
        tpid: 0,
        addresses: Addresses::BasicPath(0),
        qos: None,
        hops: None,
        stamp: None,
        expanded: None,
        checksum: 0,
        intermediate: 0,
    };
    Header {
        fields,
        length: 0,
        size: 0,
    }
}

// A refusal.
pub fn refused(refusal: u32) -> Asked
    ensures { result ≡ refused_asked refusal }
{
    let case = Case {
        arrival: 0,
        router: 0,
        intermediate: 0,
        assigned: 0,
        bound: 0,
        spent: 0,
        flood: Flood::Plain,
    };
    let renewal = Renewal {
        hops: 0,
        counted: 0,
        checksum: 0,
        summed: 0,
    };
    Asked {
        refusal,
        target: Target::Here,
        place: None,
        case,
        ready: 0,
        destination: None,
        number: 0,
        precedence: 0,
        arrival: Address(0),
        header: no_header(),
        renewal,
    }
}

// The ending of a refusal.
pub fn ended_by(refusal: u32) -> Ending
    ensures { result ≡ refused_by refusal }
{
    let ruling = Ruling {
        local: Local::No,
        onward: Onward::NotAsked,
        granted: 0,
        took: 0,
        dropped: 0,
    };
    Ending {
        refusal,
        ruling,
        precedence: 0,
        size: 0,
        legs: next_leg::no_legs(),
    }
}

// Nothing is looked up: a refusal.
fn not_looked(refusal: u32) -> Looked
    ensures { result ≡ refused_looked refusal }
{
    Looked {
        refusal,
        target: Target::Here,
        place: None,
        ready: 0,
    }
}

// An end system's address or a group's: its class (6), and by this and the ports its target.
fn ask_node(
    board: &BoardWords,
    mission: &MissionWords,
    arrival: u32,
    a: Address,
    names: Names,
) -> Looked
    requires { NamesSeen board.now mission.now names }
    ensures { result
        ≡ pick (bad_class a.0) (refused_looked 6)
        (node_looked (seated (decode_board board.now) (decode mission.now)) arrival a) }
{
    let class = address::class_of(a);
    if class == Class::Invalid {
        return not_looked(6);
    }
    let number = state_mission::number_of(mission);
    let s = survey::names::named_by(board, number, names, a);
    let target = verdict::local_half::target_of(class, s);
    Looked {
        refusal: 0,
        target,
        place: lookup::for_target::place_for(mission, target, a, arrival),
        ready: s.ready,
    }
}

// A path: its form (6), and what its place says.
fn ask_path(mission: &MissionWords, p: PathAddress) -> Looked
    ensures { (b : Board) → result ≡ pick (bad_path p.0) (refused_looked 6) (path_looked (seated b (decode mission.now)) p) }
{
    if address::path_form(p) == PathForm::Invalid {
        return not_looked(6);
    }
    Looked {
        refusal: 0,
        target: Target::Path,
        place: lookup::path_place(mission, p),
        ready: 0,
    }
}

// What is looked up of what the header aims at.
fn ask_aim(board: &BoardWords, mission: &MissionWords, arrival: u32, x: Aim, names: Names) -> Looked
    requires { NamesSeen board.now mission.now names }
    ensures { result ≡ aim_looked (seated (decode_board board.now) (decode mission.now)) arrival x }
{
    match x {
        Aim::Node(a) => ask_node(board, mission, arrival, a, names),
        Aim::Path(p) => ask_path(mission, p),
        Aim::Uncarried => not_looked(6),
    }
}

// What the ports are compared with.
fn destination_of(x: Aim) -> Option<Address>
    ensures { result ≡ destination_asked x }
{
    match x {
        Aim::Node(a) => Some(a),
        Aim::Path(_) | Aim::Uncarried => None,
    }
}

// The address that a route is searched for, 0 where there is none.
pub fn address_in(d: Option<Address>) -> u32
    ensures { result ≡ address_in d }
{
    d.map_or(0, |a| a.0)
}

// What is known before the search, of a header that is good so far: the rest of 6, then 28, and what the pairs say.
fn ask_good(
    board: &BoardWords,
    mission: &MissionWords,
    at: Arrival,
    h: Header,
    n: Renewal,
    x: Aim,
    names: Names,
) -> Asked
    requires { NamesSeen board.now mission.now names }
    ensures { result
        ≡ else_asked (pick (bad_aim x) 6 (pick (unmarked h.fields) 28 0))
        (aim_asked (seated (decode_board board.now) (decode mission.now)) (decode mission.now).number at h n x) }
{
    let l = ask_aim(board, mission, at.set, x, names);
    if l.refusal != 0 {
        return refused(l.refusal);
    }
    let f = h.fields;
    let Check::Passed = meaning::flood::check_marked(f) else {
        return refused(28);
    };
    let from = at.address;
    let qos = f.qos;
    let target = l.target;
    let place = l.place;
    let router = state_board::router_of(board);
    let flood = floods::flood_of(mission, router, target, from, f);
    Asked {
        refusal: 0,
        target,
        place,
        case: crate::ruling::case_of(router, at.set, f, flood),
        ready: l.ready,
        destination: destination_of(x),
        number: state_mission::number_of(mission),
        precedence: meaning::asked::precedence_of(qos),
        arrival: from,
        header: h,
        renewal: n,
    }
}

// What the relay carries (8), a domain for addresses of one octet (7), the source and the destination that the header names by its arrival
// port (6, by two checks), and what is asked for these.
fn ask_header(
    board: &BoardWords,
    mission: &MissionWords,
    at: Arrival,
    h: Header,
    n: Renewal,
    names: Names,
) -> Asked
    requires { NamesSeen board.now mission.now names }
    ensures { result
        ≡ carried_asked (seated (decode_board board.now) (decode mission.now)) (decode mission.now).number at h n }
{
    let f = h.fields;
    let port = at.address;
    let addresses = f.addresses;
    let Check::Passed = meaning::check_carried(f) else {
        return refused(8);
    };
    let Check::Passed = meaning::check_domain(port, addresses) else {
        return refused(7);
    };
    let Check::Passed = meaning::check_origin(meaning::origin_of(port, addresses)) else {
        return refused(6);
    };
    ask_good(
        board,
        mission,
        at,
        h,
        n,
        meaning::aim_of(port, addresses),
        names,
    )
}

// Steps 2 and 3, and what follows.
pub fn ask_octets(
    board: &BoardWords,
    mission: &MissionWords,
    at: Arrival,
    octets: &[u8],
    names: Names,
) -> Asked
    requires { NamesSeen board.now mission.now names }
    ensures { result
        ≡ octets_asked (seated (decode_board board.now) (decode mission.now)) (decode mission.now).number at
        (found_of octets.now) }
{
    match reader::find_header(octets) {
        Ok((h, n)) => ask_header(board, mission, at, h, n, names),
        Err(refusal) => refused(refusal.number()),
    }
}

// What is known before the search of the octets that came in by a port in a second, with so much room for output. The names of the ports are handed
// down to the step that compares the destination with them.
pub fn judge(
    board: &BoardWords,
    mission: &MissionWords,
    port: u32,
    second: u32,
    octets: &[u8],
    room: usize,
    names: Names,
) -> Asked
    requires { NamesSeen board.now mission.now names }
    ensures { result
        ≡ datagram_asked (seated (decode_board board.now) (decode mission.now)) (decode mission.now).number port
        second octets.now room }
{
    let number = state_mission::number_of(mission);
    let Check::Passed = state_board::check_port(board, number, port) else {
        return refused(16);
    };
    if room < OUTPUT_ROOM {
        return refused(17);
    }
    if second < state_pairs::last_of(mission) {
        return refused(29);
    }
    let p = state_board::seen_port(board, number, port as usize);
    let address = p.address;
    let at = Arrival {
        set: sets::only_port(port),
        address,
    };
    ask_octets(board, mission, at, octets, names)
}
