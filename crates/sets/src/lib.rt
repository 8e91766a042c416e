// How many ports, places, counters and missions there are, and records in a list; sets of ports, and places that a test holds at.
//
// A set of ports is a number in which port p is 2 to the power of p. What a loop over ports or places gathers is said once, for any
// test, and the laws that such loops are proved by stand beside it. Each definition grows at its end, as the loops do: what is gathered
// of the first p + 1 is made of what is gathered of the first p. The awkward cases: a search for the first place that finds none answers
// the number of places, which is no place; and a port over 7 is in no set, so that its set is the empty one.
#![tactic(auto)]

pub mod indexes;

ghost use Rattle.std.specs.Prelude.{◌≡◌};
ghost use Rattle.sets.specs.Sets.{only_port};

// How many there are of each; how many entries a queue holds stands with the queue.
pub const PORTS: u32 = 8;

pub const ROUTES: u32 = 512;

pub const GROUPS: u32 = 16;

pub const PATHS: u32 = 16;

pub const PAIRS: u32 = 64;

pub const COUNTERS: u32 = 18;

pub const MISSIONS: u32 = 2;

// The set of one port.
pub fn only_port(port: u32) -> u32
    ensures { result ≡ only_port port }
{
    if port < PORTS {
        return 1 << port;
    }
    0
}
