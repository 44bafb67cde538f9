// Encoded instructions as numbers.
ghost use Rattle.std.specs.Prelude.{◌≡◌};
ghost use Rattle.answers.specs.Instructions.{encoded_number, encoded_word};

use isa::Instruction;
use refusals::{Check, Refusal};

// The answer's number: 65,536 times the halfword, or the refusal's own.
fn encoded_number(e: Result<u16, Refusal>) -> u32
    ensures { result ≡ encoded_number e }
{
    match e {
        Ok(h) => (h as u32) * 0x10000,
        Err(r) => u8::from(r.check) as u32,
    }
}

// The same for a word's instruction; a kind that is none is refused as well.
pub fn encoded_word(d: Option<Instruction>) -> u32
    ensures { result ≡ encoded_word d }
{
    match d {
        Some(i) => encoded_number(isa::encode(i)),
        None => u8::from(Check::Fields) as u32,
    }
}
