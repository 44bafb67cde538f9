// Answers as numbers.
ghost use Rattle.std.specs.Prelude.{◌≡◌, ◌<◌};
ghost use Rattle.answers.specs.Answers.{layout_word, answer_word, given_word, start_of, packed_number};

use image::{BLOCK_BYTES, Layout};
use refusals::Refusal;

// The lengths of a program that passed.
fn layout_word(layout: Layout) -> u64
    ensures { result ≡ layout_word layout }
{
    (layout.code_bytes as u64) * 0x10000
        + (layout.window_start as u64) * 0x100000000
        + (layout.window_length as u64) * 0x1000000000000
}

// What the check, the verifier and the loader answer.
pub fn answer_word(answer: Result<Layout, Refusal>) -> u64
    ensures { result ≡ answer_word answer }
{
    match answer {
        Ok(layout) => layout_word(layout),
        Err(r) => r.word(),
    }
}

// A block's start, and its length above it.
pub fn given_word(answer: Result<Option<usize>, Refusal>) -> u64
    requires { start_of answer < 0x10000 }
    ensures { result ≡ given_word answer }
{
    match answer {
        Err(refusal) => refusal.word(),
        Ok(Some(start)) => (start as u64) * 0x10000 + (BLOCK_BYTES as u64) * 0x100000000,
        Ok(None) => 0,
    }
}

pub fn packed_number(answer: Result<(), Refusal>) -> u32
    ensures { result ≡ packed_number answer }
{
    match answer {
        Ok(()) => 0,
        Err(r) => u8::from(r.check) as u32,
    }
}
