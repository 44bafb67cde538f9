// What the assembler and the lister answer, as numbers.
ghost use Rattle.std.specs.Prelude.{◌≡◌};
ghost use Rattle.paw_tools.specs.Answers.{above, assembled_word, listed_word};

use assembler::TextRefusal;
use refusals::Refusal;

// The largest number that 48 bits hold.
const MOST: u64 = 0xffffffffffff;

// A number in the upper 48 bits. One that they don't hold is told as the largest:
// no text that memory can hold has so many lines.
fn put_above(n: u64) -> u64
    ensures { result ≡ above n }
{
    n.min(MOST) * 0x10000
}

// The halfwords written, or the refusal's number and line.
pub(crate) fn assembled_word(answer: Result<usize, TextRefusal>) -> u64
    ensures { result ≡ assembled_word answer }
{
    match answer {
        Ok(n) => put_above(n as u64),
        Err(r) => (u8::from(r.check) as u64) + put_above(r.line),
    }
}

// The bytes written, or the refusal's number and address.
pub(crate) fn listed_word(answer: Result<usize, Refusal>) -> u64
    ensures { result ≡ listed_word answer }
{
    match answer {
        Ok(length) => put_above(length as u64),
        Err(refusal) => refusal.word(),
    }
}
