// A board and a mission's state as C lends them: words of the right number, or not; and a record as C reads it back, a word at a time.
//
// Every call on what is lent is promised over one view of it: where the words are as many as a board has, or a
// mission's state, they hold one, and the call is said of that; else they hold none, the call answers so, and not a word is written. A call of a mission
// that is lent the board to read is said of both, and where either words are wrong there is no relay. What C is told and what is left are then
// one equation each, for any words whatever. Two lists of words with the same view are the same list, so that the view left fixes every
// word.
#![tactic(auto, unfolding(crate::specs::Read::word_answer))]

ghost use Rattle.std.specs.Prelude.{◌≡◌};
ghost use Rattle.lent_state.specs.Read.{word_answer};

// Word i of a record's words; the refusal 21 stands above 32 bits.
pub fn word_of(words: &[u32], i: u32) -> u64
    ensures { result ≡ word_answer words.now i }
{
    let i = i as usize;
    if i < words.len() {
        return words[i] as u64;
    }
    checks::refusal_number(21)
}
