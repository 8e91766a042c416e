// What C calls of `harpjuniper_messages`, by its C name: each function calls the one there, and promises the same.
ghost use Rattle.std.specs.Prelude.{◌≡◌, length};
ghost use Rattle.echo.specs.Message.{reading_of};
ghost use Rattle.echo.specs.Built.{built_of, built_output};
ghost use Rattle.harpjuniper_messages.specs.Face.{read_answer, read_left, request_of, reply_of, built_answer};

// Reads the echo message that the octets are.
#[unsafe(no_mangle)]
pub extern "C" fn hj_read_echo_words(message: &[u8], words: &mut [u32]) -> u32
    ensures value { result ≡ read_answer (length words.old) (reading_of message.now) }
    ensures words_after { words.new ≡ read_left (reading_of message.now) words.old }
{
    harpjuniper_messages::hj_read_echo_words(message, words)
}

// Builds a request with these data at the front of the output.
#[unsafe(no_mangle)]
pub extern "C" fn hj_build_request(
    identifier: u16,
    sequence: u16,
    echoed: &[u8],
    output: &mut [u8],
) -> u64
    ensures value { result ≡ built_answer (built_of (request_of identifier sequence) (length echoed.now) (length output.old)) }
    ensures output_after { output.new ≡ built_output (request_of identifier sequence) echoed.now output.old }
{
    harpjuniper_messages::hj_build_request(identifier, sequence, echoed, output)
}

// Builds a reply that says this of the request, with these data, at the front of the output.
#[unsafe(no_mangle)]
pub extern "C" fn hj_build_reply(
    identifier: u16,
    sequence: u16,
    hops: u8,
    format: u8,
    stamp: u64,
    mtu: u32,
    rate: u32,
    echoed: &[u8],
    output: &mut [u8],
) -> u64
    ensures value { result
        ≡ built_answer
        (built_of (reply_of identifier sequence hops format stamp mtu rate) (length echoed.now) (length output.old)) }
    ensures output_after { output.new
        ≡ built_output (reply_of identifier sequence hops format stamp mtu rate) echoed.now output.old }
{
    harpjuniper_messages::hj_build_reply(
        identifier, sequence, hops, format, stamp, mtu, rate, echoed, output,
    )
}
