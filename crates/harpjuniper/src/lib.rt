// What C calls to read and to build headers.
//
// Each function takes numbers, lent words and lent octets, calls the floor below and gives its answer as one number; the C header
// (include/harpjuniper.h) has a doc block for each. The fields of a header stand in words (crate numbers, module `in_words`), since no struct
// crosses to C. None requires anything: whatever octets, lengths or words come, the answer is the one that the definitions state. An answer
// that is a refusal or a value is one number of 64 bits, the refusal above the value.
#![tactic(auto)]

ghost use Rattle.std.specs.Prelude.{◌≡◌, ◌<◌, length};
ghost use Rattle.checks.specs.Answer.{refusal_number};
ghost use Rattle.header.specs.Read.{read_of};
ghost use Rattle.checks.specs.Told.{Good, told};
ghost use Rattle.checks.specs.Order.{number_of};
ghost use Rattle.harpjuniper.specs.Face.{
  reading_of,
  reading_count,
  reading_words,
  read_answer,
  read_left,
  built_answer,
  build_answer,
  build_output,
  build_words_answer,
  build_words_output,
};

use checks::{Check, Refusal};
use header::{Fields, Header};
use numbers::Numbers;

// The words of what reading found: the two lengths and the fields.
const READING_WORDS: usize = 2 + numbers::in_words::FIELD_WORDS;

// Writes a header that was read over all words lent.
fn write_reading(words: &mut [u32], h: Header)
    requires { (length words.old ≡ reading_count) × ((h.length < 4294967296) × (h.size < 4294967296)) }
    ensures { words.new ≡ reading_words (reading_of (Good h)) }
{
    numbers::in_words::write_numbers(&mut words[2..], Numbers::from(h.fields));
    words[0] = h.length as u32;
    words[1] = h.size as u32;
}

// Reads the header that the octets begin with.
#[unsafe(no_mangle)]
pub extern "C" fn hj_read_words(octets: &[u8], words: &mut [u32]) -> u32
    ensures value { result ≡ read_answer (length words.old) (reading_of (read_of octets.now)) }
    ensures words_after { words.new ≡ read_left (reading_of (read_of octets.now)) words.old }
{
    if words.len() != READING_WORDS {
        return Refusal::NoPlace.number();
    }
    match reader::read_header(octets) {
        Err(refusal) => refusal.number(),
        Ok(h) => {
            write_reading(words, h);
            0
        }
    }
}

// A refusal, with no value below it.
fn refusal(r: Refusal) -> u64
    ensures { result ≡ refusal_number (number_of r) }
{
    checks::refusal_number(r.number())
}

// What building answers, as one number.
fn built_answer(b: Result<usize, Refusal>) -> u64
    ensures { result ≡ built_answer (told b) }
{
    match b {
        Ok(size) => size as u64,
        Err(r) => refusal(r),
    }
}

// Builds the header of numbers, for so many octets of user data, at the front of the output.
fn build_numbers(fields: Numbers, data_size: usize, output: &mut [u8]) -> u64
    ensures value { result ≡ build_answer fields data_size (length output.old) }
    ensures output_after { output.new ≡ build_output fields data_size output.old }
{
    let Check::Passed = header::limits::check_room(output.len()) else {
        return refusal(Refusal::NoOutputRoom);
    };
    let Check::Passed = numbers::validity::check_numbers(fields) else {
        return refusal(Refusal::FieldOutOfRange);
    };
    built_answer(builder::build_header(Fields::from(fields), data_size, output))
}

// The same of the fields' words.
#[unsafe(no_mangle)]
pub extern "C" fn hj_build_words(words: &[u32], data_size: usize, output: &mut [u8]) -> u64
    ensures value { result ≡ build_words_answer words.now data_size (length output.old) }
    ensures output_after { output.new ≡ build_words_output words.now data_size output.old }
{
    if words.len() != numbers::in_words::FIELD_WORDS {
        return refusal(Refusal::NoPlace);
    }
    let fields = numbers::in_words::read_numbers(words);
    build_numbers(fields, data_size, output)
}
