// What C calls of `harpjuniper`, by its C name: each function calls the one there, and promises the same.
ghost use Rattle.std.specs.Prelude.{◌≡◌, length};
ghost use Rattle.header.specs.Read.{read_of};
ghost use Rattle.harpjuniper.specs.Face.{reading_of, read_answer, read_left, build_words_answer, build_words_output};

// Reads the header that the octets begin with.
#[unsafe(no_mangle)]
pub extern "C" fn hj_read_words(octets: &[u8], words: &mut [u32]) -> u32
    ensures value { result ≡ read_answer (length words.old) (reading_of (read_of octets.now)) }
    ensures words_after { words.new ≡ read_left (reading_of (read_of octets.now)) words.old }
{
    harpjuniper::hj_read_words(octets, words)
}

// The same of the fields' words.
#[unsafe(no_mangle)]
pub extern "C" fn hj_build_words(words: &[u32], data_size: usize, output: &mut [u8]) -> u64
    ensures value { result ≡ build_words_answer words.now data_size (length output.old) }
    ensures output_after { output.new ≡ build_words_output words.now data_size output.old }
{
    harpjuniper::hj_build_words(words, data_size, output)
}
