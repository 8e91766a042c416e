// What C links: every function of the library under its C name.
//
// A crate is a library, for other crates to stand on, or a static library, for C to link. The functions that C calls stand in the crates `harpjuniper` and
// `harpjuniper_..`, since contracts are told of them there. Here each stands once more, with the same parameters and the same promise, word for word, and only
// calls the one there (`scripts/check-thin` asks that). Nothing is required of the caller.
#![tactic(auto)]

pub mod addresses;
pub mod batches;
pub mod echoes;
pub mod groups_and_paths;
pub mod headers;
pub mod messages;
pub mod readings;
pub mod receiving;
pub mod relaying;
pub mod routing;
pub mod setup;
