// What the setting of a port is refused for. Groups and paths have a module of their own, `groups_and_paths`; a route is judged beside the
// list that it stands in (crate `route_calls`).
//
// Page 01 tests a setting in the order 21, 25, 22, 24, 23, 35, and the first test that refuses decides.
// Here the tests of values (crate `settings`), of ports that are set up (crate `state_board`) and of same entries (`same_entry`) stand in that
// order, one function for each kind of setting. Nothing is written: a call asks here first and writes only where nothing refuses, so
// that a refused setting changes nothing. Each function is total: a number out of range is refused by the first test, before it is
// used as a place. The awkward case is 35: a port is written once, and this is tested last, so that a second writing with a wrong value gets that
// value's refusal.
#![tactic(auto)]

pub mod groups_and_paths;
pub mod same_entry;

ghost use Rattle.std.specs.Prelude.{◌≡◌, ◌<◌, length};
ghost use Rattle.checks.specs.Order.{check_of, outcome};
ghost use Rattle.sets.specs.Limits.{port_count};
ghost use Rattle.records.specs.SetUp.{is_set_up};
ghost use Rattle.state.specs.Seen.{owned_at};
ghost use Rattle.state.specs.Layout.{board_words, decode_board};
ghost use Rattle.refusals.specs.Lists.{port_refusals};

use address::{Address, Mask};
use checks::{Check, Refusal};
use state::BoardWords;

// Refusal 35 of a port: it is not set up yet, whosever it is.
fn check_unwritten(board: &BoardWords, p: usize) -> Check
    requires { p < port_count }
    ensures { result ≡ check_of (is_set_up (owned_at (decode_board board.now) p).port) }
{
    if state_board::owned_of(board, p).port.ready == 0 {
        return Check::Passed;
    }
    Check::Failed
}

// Whether this port may be set up so for that mission.
pub fn port_refusal(
    board: &BoardWords,
    port: u32,
    address: Address,
    mask: Mask,
    mtu: u32,
    mission: u32,
) -> Result<(), Refusal>
    ensures { result ≡ outcome (port_refusals (decode_board board.now) port address mask mtu mission) tt }
{
    let Check::Passed = settings::check_place(port, sets::PORTS) else {
        return Err(Refusal::NoPlace);
    };
    let Check::Passed = settings::check_port_class(address) else {
        return Err(Refusal::WrongClass);
    };
    let Check::Passed = settings::check_port_mask(address, mask) else {
        return Err(Refusal::WrongMask);
    };
    let Check::Passed = settings::check_mtu(mtu) else {
        return Err(Refusal::CodeOutOfRange);
    };
    let Check::Passed = settings::check_place(mission, sets::MISSIONS) else {
        return Err(Refusal::CodeOutOfRange);
    };
    let Check::Passed = check_unwritten(board, port as usize) else {
        return Err(Refusal::WrittenAlready);
    };
    Ok(())
}
