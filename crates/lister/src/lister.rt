// The lister: checks 15, 9, 13 and 16, and the text.
ghost use Rattle.std.specs.Prelude.{◌≡◌, length};
ghost use Rattle.lister.specs.List.{check15, check16, list_of, listed_as, output_after};
ghost use Rattle.lister.specs.Passes.{fitted_of};

use super::checker::check_code;
use super::writer::Marked;
use image::MOST_CODE;
use refusals::{Check, Refusal};
use targets::Marks;

// Check 15.
fn is_program(code: &[u16]) -> bool
    ensures { result ≡ check15 code.now }
{
    (1..=MOST_CODE).contains(&code.len())
}

// The most bytes that a listing has for each instruction: the longest line is that
// of STRB, and a branch and its label have no more together.
const MOST_EACH: usize = 19;

impl Marked<'_> {
    // Check 16 of a code that passes the others. Where the room is enough for any code
    // of the length, the listing is not measured.
    fn has_room(self, room: usize) -> bool
        ensures { result ≡ check16 self.entry.code.now room }
    {
        MOST_EACH * self.code.len() <= room || self.measure() <= room
    }

    // Check 16, and the listing.
    fn write_listing(self, out: &mut [u8]) -> Result<usize, Refusal>
        ensures { (result ≡ listed_as (fitted_of self.entry.code.now (length out.old)))
            × (out.new
            ≡ output_after (fitted_of self.entry.code.now (length out.old)) out.old) }
    {
        if !self.has_room(out.len()) {
            return Err(Refusal::new(Check::OutputLength));
        }
        Ok(self.write(out))
    }
}

// Writes a code as a text: a line for each instruction, and before each that a
// branch goes to a label, `a` and its address. What is beyond the text stays as
// it was.
pub fn list(code: &[u16], out: &mut [u8]) -> Result<usize, Refusal>
    ensures { (result ≡ listed_as (list_of code.now (length out.old)))
        × (out.new
        ≡ output_after (list_of code.now (length out.old)) out.old) }
{
    if !is_program(code) {
        return Err(Refusal::new(Check::CodeLength));
    }
    let mut marks = Marks::new();
    check_code(code, &mut marks)?;
    let marked = Marked {
        code,
        marks: &marks,
    };
    marked.write_listing(out)
}
