// The operator's board in lent words: router or host, the ports and whose they are, the lifetime of pairs, whether echo requests are dropped, and a fresh board.
//
// The caller lends the whole board, 43 words, and each function works on the words of one part, so that nothing is copied that is
// not asked for. The crates `state_mission`, `state_places`, `state_queues` and `state_pairs` do the same for a mission's words. Each promise is over
// `decode_board` alone: above this crate nobody sees a word, and the layout can change without a proof above it. What is required is the
// length and a number in range, which the calls from C have tested. No board is bad: any 43 words hold some port in each place.
// A mission sees a port as it stands where it is its own, and else one that is not set up; a number over 1, which only words that no call
// wrote can have, owns none. So the rules above, which ask a port whether it is set up, need not ask whose it is.
#![tactic(auto)]

pub mod ready;

ghost use Rattle.std.specs.Prelude.{◌≡◌, not, ◌<◌, length, get_or};
ghost use Rattle.checks.specs.Order.{check_of};
ghost use Rattle.sets.specs.Limits.{port_count};
ghost use Rattle.records.specs.Fresh.{fresh_port};
ghost use Rattle.records.specs.Owned.{seen_port};
ghost use Rattle.state.specs.Layout.{board_words, decode_board, owned_of, owned_words};
ghost use Rattle.state.specs.Relay.{among_ports};
ghost use Rattle.state.specs.Seen.{owned_at, put_router, put_owned, put_lifetime, put_drop, fresh_board, ports_seen};

use address::{Address, Mask};
use checks::Check;
use records::{OwnedPort, Port};
use state::{BOARD_WORDS, BoardWords};

// Where the sections begin.
const ROUTER_AT: usize = 0;

const PORTS_AT: usize = 1;

const PORT_WORDS: usize = 5;

const LIFETIME_AT: usize = 41;

const DROP_AT: usize = 42;

// 0 for a host.
pub fn router_of(board: &BoardWords) -> u32
    ensures { result ≡ (decode_board board.now).router }
{
    board[ROUTER_AT]
}

pub fn put_router(board: &mut BoardWords, x: u32)
    ensures { decode_board board.new ≡ put_router (decode_board board.old) x }
{
    board[ROUTER_AT] = x;
}

// How old a pair may be before a sweep frees it, in seconds.
pub fn lifetime_of(board: &BoardWords) -> u32
    ensures { result ≡ (decode_board board.now).lifetime }
{
    board[LIFETIME_AT]
}

pub fn put_lifetime(board: &mut BoardWords, x: u32)
    ensures { decode_board board.new ≡ put_lifetime (decode_board board.old) x }
{
    board[LIFETIME_AT] = x;
}

// 0 where echo requests are answered.
pub fn drop_of(board: &BoardWords) -> u32
    ensures { result ≡ (decode_board board.now).drop }
{
    board[DROP_AT]
}

pub fn put_drop(board: &mut BoardWords, x: u32)
    ensures { decode_board board.new ≡ put_drop (decode_board board.old) x }
{
    board[DROP_AT] = x;
}

fn read_owned(s: &[u32]) -> OwnedPort
    requires { length s.now ≡ 5 }
    ensures { result ≡ owned_of s.now }
{
    OwnedPort {
        port: Port {
            ready: s[0],
            address: Address(s[1]),
            mask: Mask(s[2]),
            mtu: s[3],
        },
        mission: s[4],
    }
}

fn write_owned(s: &mut [u32], x: OwnedPort)
    requires { length s.old ≡ 5 }
    ensures { s.new ≡ owned_words x }
{
    s[0] = x.port.ready;
    s[1] = x.port.address.0;
    s[2] = x.port.mask.0;
    s[3] = x.port.mtu;
    s[4] = x.mission;
}

pub fn owned_of(board: &BoardWords, p: usize) -> OwnedPort
    requires { p < port_count }
    ensures { result ≡ owned_at (decode_board board.now) p }
{
    let from = PORTS_AT + p * PORT_WORDS;
    read_owned(&board[from..from + PORT_WORDS])
}

pub fn put_owned(board: &mut BoardWords, p: usize, x: OwnedPort)
    requires { p < port_count }
    ensures { decode_board board.new ≡ put_owned (decode_board board.old) p x }
{
    let from = PORTS_AT + p * PORT_WORDS;
    write_owned(&mut board[from..from + PORT_WORDS], x);
}

// The port as a mission sees it.
fn seen(x: OwnedPort, number: u32) -> Port
    ensures { result ≡ seen_port number x }
{
    if number < sets::MISSIONS && x.mission == number {
        return x.port;
    }
    Port {
        ready: 0,
        address: Address(0),
        mask: Mask(0),
        mtu: 0,
    }
}

// Port p as the mission of this number sees it.
pub fn seen_port(board: &BoardWords, number: u32, p: usize) -> Port
    requires { p < port_count }
    ensures { result ≡ get_or (ports_seen number (decode_board board.now)) p fresh_port }
{
    seen(owned_of(board, p), number)
}

// The port is one of the eight, set up, and the mission's: what receiving asks of the port that a datagram came in by, and taking of its own.
pub fn check_port(board: &BoardWords, number: u32, port: u32) -> Check
    ensures { result ≡ check_of (not (among_ports (ports_seen number (decode_board board.now)) port)) }
{
    if sets::PORTS <= port {
        return Check::Failed;
    }
    if seen_port(board, number, port as usize).ready == 0 {
        return Check::Failed;
    }
    Check::Passed
}

// A fresh board, whatever stood there.
pub fn clear_board(board: &mut BoardWords)
    ensures { decode_board board.new ≡ fresh_board }
{
    for i in 0..BOARD_WORDS {
        board[i] = 0;
    }
}
