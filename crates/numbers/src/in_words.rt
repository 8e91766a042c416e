// Numbers in words of 32 bits, as C lends them.
//
// No struct crosses to C by value, so the numbers of a header's fields travel as words, in the order of the struct. Both ways are plain copies
// that lose nothing (proofs/in_words/Halves.antt). The awkward numbers are those of 64 bits: each takes two words, the upper half first, on every machine.
ghost use Rattle.std.specs.Prelude.{◌≡◌, length};
ghost use Rattle.numbers.specs.InWords.{field_words, joined, numbers_words, numbers_from};

use crate::{Numbers, Wide};

// How many words the numbers take.
pub const FIELD_WORDS: usize = 26;

// How many numbers a word has to choose from.
const WORD: u64 = 4294967296;

fn joined_halves(upper: u32, lower: u32) -> u64
    ensures { result ≡ joined upper lower }
{
    upper as u64 * WORD + lower as u64
}

// Writes the numbers over all words lent.
pub fn write_numbers(words: &mut [u32], n: Numbers)
    requires { length words.old ≡ field_words }
    ensures { words.new ≡ numbers_words n }
{
    words[0] = (n.destination.high / WORD) as u32;
    words[1] = (n.destination.high % WORD) as u32;
    words[2] = (n.destination.low / WORD) as u32;
    words[3] = (n.destination.low % WORD) as u32;
    words[4] = (n.source.high / WORD) as u32;
    words[5] = (n.source.high % WORD) as u32;
    words[6] = (n.source.low / WORD) as u32;
    words[7] = (n.source.low % WORD) as u32;
    words[8] = (n.time / WORD) as u32;
    words[9] = (n.time % WORD) as u32;
    words[10] = n.tpid;
    words[11] = n.sourced;
    words[12] = n.extended;
    words[13] = n.ipv6;
    words[14] = n.qualified;
    words[15] = n.precedence;
    words[16] = n.routing;
    words[17] = n.program;
    words[18] = n.counted;
    words[19] = n.hops;
    words[20] = n.format;
    words[21] = n.pfield;
    words[22] = n.expands;
    words[23] = n.expanded;
    words[24] = n.checksum;
    words[25] = n.intermediate;
}

// Reads the numbers from all words lent.
pub fn read_numbers(words: &[u32]) -> Numbers
    requires { length words.now ≡ field_words }
    ensures { result ≡ numbers_from words.now }
{
    Numbers {
        destination: Wide {
            high: joined_halves(words[0], words[1]),
            low: joined_halves(words[2], words[3]),
        },
        source: Wide {
            high: joined_halves(words[4], words[5]),
            low: joined_halves(words[6], words[7]),
        },
        time: joined_halves(words[8], words[9]),
        tpid: words[10],
        sourced: words[11],
        extended: words[12],
        ipv6: words[13],
        qualified: words[14],
        precedence: words[15],
        routing: words[16],
        program: words[17],
        counted: words[18],
        hops: words[19],
        format: words[20],
        pfield: words[21],
        expands: words[22],
        expanded: words[23],
        checksum: words[24],
        intermediate: words[25],
    }
}
