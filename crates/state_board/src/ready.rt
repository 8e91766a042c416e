// Which ports are set up: those that a mission sees, and all.
//
// Page 01 refuses by 21 a setting that names a port over 7 or one that is not set up. The eight ports of the board are gathered into
// one set, port p as 2^p, so that every test of a port or of a set of ports (crate `settings`) is made on numbers and needs the board no
// more. The awkward case is a flag that no call writes: a port whose `ready` is neither 0 nor 1 counts as set up.
ghost use Rattle.std.specs.Prelude.{◌≡◌, ◌<◌, ◌^◌, length};
ghost use Rattle.checks.specs.Order.{pick};
ghost use Rattle.records.specs.SetUp.{is_set_up};
ghost use Rattle.sets.specs.Limits.{port_count};
ghost use Rattle.state.specs.Layout.{board_words, decode_board};
ghost use Rattle.state.specs.Relay.{ready_of};
ghost use Rattle.state.specs.Seen.{ports_seen, all_ports};

use records::Port;
use sets::indexes::PORTS;
use state::BoardWords;

// Port p as a set of its own where it is set up, else the empty set.
fn bit_of(x: Port, p: usize) -> u32
    requires { p < port_count }
    ensures { result ≡ pick (is_set_up x) (2 ^ p) 0 }
{
    if x.ready == 0 {
        return 0;
    }
    1u32 << p
}

// The set of the ports that the mission of this number sees as set up.
pub fn ready_ports(board: &BoardWords, number: u32) -> u32
    ensures { result ≡ ready_of (ports_seen number (decode_board board.now)) }
{
    let mut set: u32 = 0;
    for p in 0..PORTS {
        set += bit_of(crate::seen_port(board, number, p), p);
    }
    set
}

// The set of all ports that are set up, whosever they are.
pub fn all_ready(board: &BoardWords) -> u32
    ensures { result ≡ ready_of (all_ports (decode_board board.now)) }
{
    let mut set: u32 = 0;
    for p in 0..PORTS {
        set += bit_of(crate::owned_of(board, p).port, p);
    }
    set
}
