// The assembler: check 21, then 15, then 22 and 23, then 16, and then the code.
ghost use Rattle.std.specs.Prelude.{[], ◌≡◌, ◌<◌, ◌≤◌, length, Err};
ghost use Rattle.assembler.specs.Assemble.{assemble_of, check_from};
ghost use Rattle.assembler.specs.Assembled.{assembled_as, output_after, refusal, TriedOf};
ghost use Rattle.assembler.specs.Labels.{Holds};
ghost use Rattle.assembler.specs.Passes.{Ready, items_of, made_of, translated_as, Unfolded};

use super::reader::{BLANK, Counted, Note, read_all};
use super::refusal::TextRefusal;
use super::translator::translate;
use image::MOST_CODE;
use labels::{Entry, FREE};
use refusals::Check;

// Checks 22 and 23 of all lines: a pass with no room to put anything.
fn check_lines(
    text: &[u8],
    table: &[Entry],
    notes: &[Note],
    counted: Counted,
) -> Result<(), TextRefusal>
    requires { Ready text.now table.now notes.now counted }
    ensures { result ≡ translated_as
        (made_of (check_from (items_of text.now) 1 0 (items_of text.now))) }
{
    let mut none = [0u16; 0];
    translate(text, table, notes, counted, &mut none)
}

// The refusal by a check of the whole text.
fn refused<T>(check: Check) -> Result<T, TextRefusal>
    ensures { result ≡ Err (refusal check) }
{
    Err(TextRefusal { check, line: 0 })
}

// Checks 15, 22, 23 and 16 of a text that was read, and its code; nothing if the
// notes have no room for all instructions.
fn write_code(
    text: &[u8],
    table: &[Entry],
    notes: &[Note],
    counted: Counted,
    out: &mut [u16],
) -> Result<Option<usize>, TextRefusal>
    requires { Unfolded text.now table.now notes.now counted }
    ensures { TriedOf (assemble_of text.now (length out.old))
        (length notes.now) out.old result out.new }
{
    let size = counted.n as usize;
    if size < 1 || MOST_CODE < size {
        return refused(Check::CodeLength);
    }
    if notes.len() < size {
        return Ok(None);
    }
    check_lines(text, table, notes, counted)?;
    if out.len() < size {
        return refused(Check::OutputLength);
    }
    translate(text, table, notes, counted, out)?;
    Ok(Some(size))
}

// The same of a text, with an empty table of labels and room for notes.
fn assemble_with(
    text: &[u8],
    table: &mut [Entry],
    notes: &mut [Note],
    out: &mut [u16],
) -> Result<Option<usize>, TextRefusal>
    requires { Holds table.old [] }
    ensures { TriedOf (assemble_of text.now (length out.old))
        (length notes.old) out.old result out.new }
{
    let counted = read_all(text, table, notes)?;
    write_code(text, table, notes, counted, out)
}

// The same with so many places of the table of labels, and room for the notes of
// so many instructions. What a text doesn't need is cleared all the same, so a
// short one gets little; and each size is a function of its own, so that the stack
// of a larger one isn't touched.
#[inline(never)]
fn assemble_in<const PLACES: usize, const CODE: usize>(
    text: &[u8],
    out: &mut [u16],
) -> Result<Option<usize>, TextRefusal>
    requires { (0 < PLACES) × (PLACES < 65536) × (CODE < 65536) }
    ensures { TriedOf (assemble_of text.now (length out.old)) CODE
        out.old result out.new }
{
    let mut table = [FREE; PLACES];
    let mut notes = [BLANK; CODE];
    assemble_with(text, &mut table, &mut notes, out)
}

// The longest texts that are tried with little room. That they have no more
// instructions than it holds is likely, and asked.
const FEW_BYTES: usize = 1024;

const SOME_BYTES: usize = 16384;

// The places of the largest table: a prime, twice as many as a program can have
// instructions.
const MOST_PLACES: usize = 32537;

// A try with little room, of a text that is not long.
fn assemble_short(text: &[u8], out: &mut [u16]) -> Result<Option<usize>, TextRefusal>
    ensures { TriedOf (assemble_of text.now (length out.old)) 0
        out.old result out.new }
{
    if text.len() <= FEW_BYTES {
        return assemble_in::<256, 128>(text, out);
    }
    if text.len() <= SOME_BYTES {
        return assemble_in::<2048, 1536>(text, out);
    }
    Ok(None)
}

// With room for as many instructions as an image has.
fn assemble_long(text: &[u8], out: &mut [u16]) -> Result<usize, TextRefusal>
    ensures { (result ≡ assembled_as (assemble_of text.now (length out.old)))
        × (out.new
        ≡ output_after (assemble_of text.now (length out.old)) out.old) }
{
    let written = assemble_in::<MOST_PLACES, MOST_CODE>(text, out)?;
    // Never None: there are notes for all instructions that check 15 lets pass.
    Ok(written.unwrap_or(0))
}

// Puts the code of a text into the output, and answers how many halfwords that is.
// What lies behind the code stays as it was, and a refusal changes nothing.
pub fn assemble(text: &[u8], out: &mut [u16]) -> Result<usize, TextRefusal>
    ensures { (result ≡ assembled_as (assemble_of text.now (length out.old)))
        × (out.new
        ≡ output_after (assemble_of text.now (length out.old)) out.old) }
{
    match assemble_short(text, out)? {
        Some(size) => Ok(size),
        None => assemble_long(text, out),
    }
}
