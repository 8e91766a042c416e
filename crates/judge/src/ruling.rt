// What the rule asks of the node, the arrival port and the header.
//
// The case is gathered before the search, and handed on. What is asked of the wanted ports waits for the route, since a route may ask for a longer
// header: the octets of the datagram as a port of the arrival port's domain gets it, and as another does. The awkward case is one that fits the near
// ports alone, or, where the header that came was not the shortest, the far ones alone.
ghost use Rattle.std.specs.Prelude.{◌≡◌, ◌*◌, ◌<◌};
ghost use Rattle.header.specs.Limits.{length_limit};
ghost use Rattle.judge.specs.Ruling.{case_of, sought_by};

use address::Address;
use header::Fields;
use next_leg::Lengths;
use survey::Sought;
use verdict::{Case, Flood};

// Where a datagram came in: the port as a set, and its address.
#[derive(Clone, Copy)]
pub struct Arrival {
    pub set: u32,
    pub address: Address,
}

// What the rule asks of the node, the arrival port and the header.
pub fn case_of(router: u32, arrival: u32, f: Fields, flood: Flood) -> Case
    ensures { result ≡ case_of router arrival f flood }
{
    let addresses = f.addresses;
    let hops = f.hops;
    Case {
        arrival,
        router,
        intermediate: f.intermediate as u32,
        assigned: meaning::asked::assigned_of(f.tpid),
        bound: meaning::is_bound(addresses),
        spent: meaning::asked::spent_of(hops),
        flood,
    }
}

// What is asked of the wanted ports, with both lengths of the datagram.
pub fn sought_of(arrival: Address, q: Lengths) -> Sought
    requires { (q.near < 2 * length_limit) × (q.far < 2 * length_limit) }
    ensures { result ≡ sought_by arrival q }
{
    Sought {
        domain: networks::domain_of(arrival),
        near: q.near as u32,
        far: q.far as u32,
    }
}
