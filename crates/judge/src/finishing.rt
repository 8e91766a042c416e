// The ruling, once the route is known.
//
// The local half and the line of the onward half are made of what was looked up before. Domain, size and queue are asked only of the ports that the
// datagram is wanted on, and of none where it is wanted on none or its hops are used up. The definition surveys all ports; that these
// few are enough is proved (proofs/Wanted.antt). Which header each port gets that took a copy is part of the answer; it is written later.
//
// The awkward case is a place of a group or a path in a state that no history leaves: its set may have numbers that are no ports; no port of
// these is surveyed, and none is granted a copy.
ghost use Rattle.std.specs.Prelude.{◌≡◌, length, Option};
ghost use Rattle.state.specs.Seen.{seated};
ghost use Rattle.state.specs.Layout.{board_words, decode_board, mission_words, decode};
ghost use Rattle.next_leg.specs.Leg.{no_legs, Sound};
ghost use Rattle.address.specs.declared.Address.{Address};
ghost use Rattle.judge.specs.Asked.{among_of, wished_of, finished_of};

use crate::{Asked, Ending};
use next_leg::{Leg, Legs};
use state::{BoardWords, MissionWords};
use verdict::{Case, Local, Onward, Ruling, Way, Wish};

// A ruling, and the headers of the copies that ports took.
#[derive(Clone, Copy)]
pub struct Ruled {
    pub ruling: Ruling,
    pub legs: Legs,
}

// A ruling that grants nothing.
fn unsent(local: Local, onward: Onward) -> Ruled
    ensures { result ≡ record { ruling = record { local = local; onward = onward; granted = 0; took = 0; dropped = 0 }; legs = no_legs } }
{
    let ruling = Ruling {
        local,
        onward,
        granted: 0,
        took: 0,
        dropped: 0,
    };
    Ruled {
        ruling,
        legs: next_leg::no_legs(),
    }
}

// The ruling by the local half and the ports wanted, which are asked.
fn rule_wanted(
    board: &BoardWords,
    mission: &MissionWords,
    local: Local,
    set: u32,
    bound: u32,
    l: Leg,
) -> Ruled
    requires { Sound l.header }
    ensures { result ≡ among_of (seated (decode_board board.now) (decode mission.now)) local set bound l }
{
    let arrival = l.arrival;
    let q = next_leg::lengths_next(l);
    let s = survey::wanted(board, mission, set, crate::ruling::sought_of(arrival, q));
    let granted = verdict::copies::granted_among(set, bound, s);
    let ruling = verdict::copies::ruling_of(local, granted, s.full);
    Ruled {
        ruling,
        legs: next_leg::legs_of(ruling.took, s.domain, l, q),
    }
}

// The ruling by the local half and what the line wants.
fn rule(
    board: &BoardWords,
    mission: &MissionWords,
    local: Local,
    wish: Wish,
    c: Case,
    l: Leg,
) -> Ruled
    requires { Sound l.header }
    ensures { (d : Option Address) → result ≡ wished_of (seated (decode_board board.now) (decode mission.now)) d local wish c l }
{
    match verdict::copies::after_hops(wish, c.spent) {
        Wish::NotAsked => unsent(local, Onward::NotAsked),
        Wish::Refused(obstacle) => unsent(local, Onward::Refused(obstacle)),
        Wish::Wanted(set) => rule_wanted(board, mission, local, set, c.bound, l),
    }
}

// What becomes of a datagram that is not refused, with the route that was found for it, if one was sought.
pub fn finish(board: &BoardWords, mission: &MissionWords, a: Asked, way: Option<Way>) -> Ending
    requires { (a.refusal ≡ 0) × Sound a.header }
    ensures { result ≡ finished_of (seated (decode_board board.now) (decode mission.now)) a way }
{
    let target = a.target;
    let place = a.place;
    let case = a.case;
    let arrival = a.arrival;
    let header = a.header;
    let local = verdict::local_half::local_of(target, place, case);
    let wish = verdict::onward_half::line_of(target, place, way, case, a.ready, local);
    let leg = Leg {
        arrival,
        code: verdict::code_of(way),
        header,
    };
    let ruled = rule(board, mission, local, wish, case, leg);
    let ruling = ruled.ruling;
    let legs = ruled.legs;
    Ending {
        refusal: 0,
        ruling,
        precedence: a.precedence,
        size: header.size,
        legs,
    }
}
