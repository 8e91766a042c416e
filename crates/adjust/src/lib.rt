// The settings calls: router or host, whether echo requests are dropped, a port, and a mission made fresh. Groups and paths stand in the module
// `groups_and_paths`; routes, which stand in a list of their own, in the crate `route_calls`.
//
// Each call asks first what refuses it (crate `refusals`), and writes one place of the board or of the mission only where nothing does: a refused call
// answers its refusal and changes nothing, of a taken one its record stands in the place. A filled record has 1 as its flag,
// an emptied place is the record of a fresh mission, so that equal settings are equal states. Any number is an argument and any words of the right
// number are a board or a mission: a place that is none is refused by 21, and emptying an empty place is taken.
#![tactic(auto)]

pub mod groups_and_paths;

ghost use Rattle.std.specs.Prelude.{◌≡◌, length};
ghost use Rattle.checks.specs.Order.{first_of, number_in};
ghost use Rattle.state.specs.Layout.{board_words, decode_board, mission_words, decode};
ghost use Rattle.refusals.specs.Lists.{port_checks, flag_checks, mission_checks};
ghost use Rattle.adjust.specs.Settled.{settled_router, settled_drop, settled_port, settled_fresh};

use address::{Address, Mask};
use checks::{Check, Refusal};
use records::{OwnedPort, Port};
use state::{BoardWords, MissionWords};

// 1 makes the node a router, 0 a host.
pub fn set_router(board: &mut BoardWords, router: u32) -> Result<(), Refusal>
    ensures answer { number_in result ≡ first_of (flag_checks router) }
    ensures left { decode_board board.new ≡ settled_router (decode_board board.old) router }
{
    let Check::Passed = settings::check_flag(router) else {
        return Err(Refusal::CodeOutOfRange);
    };
    state_board::put_router(board, router);
    Ok(())
}

// 1 drops all echo requests, 0 answers them.
pub fn set_drop(board: &mut BoardWords, drop: u32) -> Result<(), Refusal>
    ensures answer { number_in result ≡ first_of (flag_checks drop) }
    ensures left { decode_board board.new ≡ settled_drop (decode_board board.old) drop }
{
    let Check::Passed = settings::check_flag(drop) else {
        return Err(Refusal::CodeOutOfRange);
    };
    state_board::put_drop(board, drop);
    Ok(())
}

// Sets a port up, for that mission. A port is written once.
pub fn set_port(
    board: &mut BoardWords,
    port: u32,
    address: Address,
    mask: Mask,
    mtu: u32,
    mission: u32,
) -> Result<(), Refusal>
    ensures answer { number_in result ≡ first_of (port_checks (decode_board board.old) port address mask mtu mission) }
    ensures left { decode_board board.new ≡ settled_port (decode_board board.old) port address mask mtu mission }
{
    refusals::port_refusal(board, port, address, mask, mtu, mission)?;
    let x = OwnedPort {
        port: Port {
            ready: 1,
            address,
            mask,
            mtu,
        },
        mission,
    };
    state_board::put_owned(board, port as usize, x);
    Ok(())
}

// Makes a mission of this number fresh, whatever stood there.
pub fn fresh_mission(mission: &mut MissionWords, number: u32) -> Result<(), Refusal>
    ensures answer { number_in result ≡ first_of (mission_checks number) }
    ensures left { decode mission.new ≡ settled_fresh (decode mission.old) number }
{
    let Check::Passed = settings::check_place(number, sets::MISSIONS) else {
        return Err(Refusal::CodeOutOfRange);
    };
    state_mission::clear_mission(mission, number);
    Ok(())
}
