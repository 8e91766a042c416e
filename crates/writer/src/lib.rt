// The pieces of a header, each written at its place.
//
// A header is its front, its addresses and its other elements, and each has a module here. A function writes the octets of its piece into
// the output from a place on and answers the place behind them, so that a header is a chain of calls. Each promise says what the whole
// output is afterwards; two neighbours join by one law (`put_two` in crate octets). The awkward piece is one that is absent: it is written
// like the others, as no octets, so that the chain has no gaps.
#![tactic(auto)]

pub mod addresses;
pub mod elements;
pub mod front;
