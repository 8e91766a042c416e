// What C calls to read the settings back, one number of a record at a time, and what a mission remembers of flooded datagrams.
//
// Each answer is a word of the record as it stands, or the refusal 21 above 32 bits: where the words lent are of the wrong number, where there is no
// such place, and where the record has no such word. So what `hj_set_port` took is what `hj_port_word` gives, word for word; the header's
// inline functions gather the words of a record into a struct. The awkward case is a place that is empty or a port that
// is not set up: it is read like any other, and its first word says so; a pair's first word is its format, and 0 where the place is free. A port is read
// whosever it is. The routes are lent as a list of records, and
// are read in the crate `harpjuniper_routes`.
// A place or port that does not exist is refused before the words are looked at. Both tests answer 21, so the order cannot be seen, and no proof of that
// refusal has to read the words.
// A refusal of words is written as its number here, and not by `Refusal`: C is told numbers.
#![tactic(auto)]

ghost use Rattle.std.specs.Prelude.{◌≡◌};
ghost use Rattle.checks.specs.Answer.{refusal_number};
ghost use Rattle.state.specs.Seen.{Board, State};
ghost use Rattle.state.specs.Layout.{owned_words, group_words, path_words, pair_words};
ghost use Rattle.lent_state.specs.View.{told_board, told};
ghost use Rattle.lent_state.specs.Read.{word_answer};
ghost use Rattle.harpjuniper_reads.specs.Back.{port_answer, group_answer, path_answer, pair_answer};

use records::{Group, OwnedPort, PairPlace, PathPlace};
use state::{BoardWords, MissionWords};

// 1 for a router, 0 for a host.
#[unsafe(no_mangle)]
pub extern "C" fn hj_get_router(board: &[u32]) -> u64
    ensures { result ≡ told_board (λ (x : Board). x.router) (refusal_number 21) board.now }
{
    let Ok(board) = <&BoardWords>::try_from(board) else {
        return checks::refusal_number(21);
    };
    state_board::router_of(board) as u64
}

// How old a pair may be before a sweep frees it, in seconds.
#[unsafe(no_mangle)]
pub extern "C" fn hj_get_lifetime(board: &[u32]) -> u64
    ensures { result ≡ told_board (λ (x : Board). x.lifetime) (refusal_number 21) board.now }
{
    let Ok(board) = <&BoardWords>::try_from(board) else {
        return checks::refusal_number(21);
    };
    state_board::lifetime_of(board) as u64
}

// Whether echo requests are dropped: 1 or 0.
#[unsafe(no_mangle)]
pub extern "C" fn hj_get_echo_drop(board: &[u32]) -> u64
    ensures { result ≡ told_board (λ (x : Board). x.drop) (refusal_number 21) board.now }
{
    let Ok(board) = <&BoardWords>::try_from(board) else {
        return checks::refusal_number(21);
    };
    state_board::drop_of(board) as u64
}

fn owned_word(x: OwnedPort, word: u32) -> u64
    ensures { result ≡ word_answer (owned_words x) word }
{
    lent_state::word_of(
        &[
            x.port.ready,
            x.port.address.0,
            x.port.mask.0,
            x.port.mtu,
            x.mission,
        ],
        word,
    )
}

// A port: 0 is whether it is set up, 1 the address, 2 the mask, 3 the MTU, 4 the mission.
#[unsafe(no_mangle)]
pub extern "C" fn hj_port_word(board: &[u32], port: u32, word: u32) -> u64
    ensures { result ≡ told_board (λ (x : Board). port_answer x port word) (refusal_number 21) board.now }
{
    if sets::PORTS <= port {
        return checks::refusal_number(21);
    }
    let Ok(board) = <&BoardWords>::try_from(board) else {
        return checks::refusal_number(21);
    };
    owned_word(state_board::owned_of(board, port as usize), word)
}

fn group_word(x: Group, word: u32) -> u64
    ensures { result ≡ word_answer (group_words x) word }
{
    lent_state::word_of(&[x.filled, x.address.0, x.send, x.subscribed], word)
}

// A group: 0 is whether the place is filled, 1 the address, 2 the ports to send to, 3 those subscribed.
#[unsafe(no_mangle)]
pub extern "C" fn hj_group_word(mission: &[u32], place: u32, word: u32) -> u64
    ensures { result ≡ told (λ (x : State). group_answer x.mission place word) (refusal_number 21) mission.now }
{
    if sets::GROUPS <= place {
        return checks::refusal_number(21);
    }
    let Ok(mission) = <&MissionWords>::try_from(mission) else {
        return checks::refusal_number(21);
    };
    group_word(state_places::group_of(mission, place as usize), word)
}

fn path_word(x: PathPlace, word: u32) -> u64
    ensures { result ≡ word_answer (path_words x) word }
{
    lent_state::word_of(&[x.filled, x.path.0, x.send, x.here], word)
}

// A path: 0 is whether the place is filled, 1 the path address, 2 the ports to send to, 3 whether it is delivered here.
#[unsafe(no_mangle)]
pub extern "C" fn hj_path_word(mission: &[u32], place: u32, word: u32) -> u64
    ensures { result ≡ told (λ (x : State). path_answer x.mission place word) (refusal_number 21) mission.now }
{
    if sets::PATHS <= place {
        return checks::refusal_number(21);
    }
    let Ok(mission) = <&MissionWords>::try_from(mission) else {
        return checks::refusal_number(21);
    };
    path_word(state_places::path_of(mission, place as usize), word)
}

// The last second that the mission accepted.
#[unsafe(no_mangle)]
pub extern "C" fn hj_last_second(mission: &[u32]) -> u64
    ensures { result ≡ told (λ (x : State). x.memory.last) (refusal_number 21) mission.now }
{
    let Ok(mission) = <&MissionWords>::try_from(mission) else {
        return checks::refusal_number(21);
    };
    state_pairs::last_of(mission) as u64
}

fn pair_word(x: PairPlace, word: u32) -> u64
    ensures { result ≡ word_answer (pair_words x) word }
{
    lent_state::word_of(
        &[
            x.pair.format,
            x.pair.source.0,
            x.pair.upper,
            x.pair.lower,
            x.second,
        ],
        word,
    )
}

// A pair: 0 is the format of its timestamp, 0 where the place is free, 1 the source, 2 and 3 the timestamp's upper and lower octets, 4 the second in which
// it came.
#[unsafe(no_mangle)]
pub extern "C" fn hj_pair_word(mission: &[u32], place: u32, word: u32) -> u64
    ensures { result ≡ told (λ (x : State). pair_answer x.memory place word) (refusal_number 21) mission.now }
{
    if sets::PAIRS <= place {
        return checks::refusal_number(21);
    }
    let Ok(mission) = <&MissionWords>::try_from(mission) else {
        return checks::refusal_number(21);
    };
    pair_word(state_pairs::place_of(mission, place as usize), word)
}
