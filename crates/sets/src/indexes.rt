// How many ports, places and counters there are, as numbers to count a loop by.
//
// C hands over numbers of 32 bits, and a place in a list of words is a `usize`. The limits stand at the root of this crate, as C names
// them; here they are again in the other type, made of those and never written anew.

pub const PORTS: usize = crate::PORTS as usize;

pub const ROUTES: usize = crate::ROUTES as usize;

pub const GROUPS: usize = crate::GROUPS as usize;

pub const PATHS: usize = crate::PATHS as usize;

pub const PAIRS: usize = crate::PAIRS as usize;
