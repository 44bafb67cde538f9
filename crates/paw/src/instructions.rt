// The C faces of the decoder and the encoder. An instruction is a 32-bit word.
ghost use Rattle.std.specs.Prelude.{◌≡◌};
ghost use Rattle.isa.specs.Decode.{decode_of};
ghost use Rattle.words.specs.Words.{decoded_word, instruction_of};
ghost use Rattle.answers.specs.Instructions.{encoded_word};

// What a halfword says, as a word; 0 where it is undefined.
#[unsafe(no_mangle)]
pub extern "C" fn paw_decode(h: u16) -> u32
    ensures { result ≡ decoded_word (decode_of h) }
{
    words::decoded_word(isa::decode(h))
}

// 65,536 times the halfword of a word's instruction, or 17 where there is none.
#[unsafe(no_mangle)]
pub extern "C" fn paw_encode(w: u32) -> u32
    ensures { result ≡ encoded_word (instruction_of w) }
{
    answers::encoded_word(words::instruction_of(w))
}
