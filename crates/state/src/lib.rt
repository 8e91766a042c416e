// What is lent: the operator's board, a mission's own state, and the relay of page 01 that a mission sees of them; and the words that C keeps.
//
// There is no function here. specs/Relay.antt has the relay and what one reads of it and changes in it; specs/Seen.antt has the board and the
// state, and what a mission sees; specs/Layout.antt has the words, 43 of a board and 732 of a mission.
// A state is in four: the mission's number, which nobody changes; its groups, paths and queues, which the rules read; what it remembers of floods, which
// they read too, and which a refusal may move; and its counters, which no rule reads. So a definition that takes a relay cannot depend on a counter, and one that takes a
// mission cannot depend on the board.
// Each field is a whole word, an entry's slot and precedence share one without loss, and no word is ignored: every list of 43 words,
// garbage included, is a board, every list of 732 is a state, and no two of them are the same one. So a promise over the decoded side fixes
// every word. The words are cut in sections, and each section in records of one length, so that one law covers every read of a record
// and one every write.
#![tactic(auto)]

// How many words a board has, and how many a mission's state.
pub const BOARD_WORDS: usize = 43;

pub const MISSION_WORDS: usize = 732;

// The words of a board and of a mission's state, as many as there have to be. C lends slices; a call turns what it is lent into these first, and
// below it nobody asks for a length again.
pub type BoardWords = [u32; BOARD_WORDS];

pub type MissionWords = [u32; MISSION_WORDS];
