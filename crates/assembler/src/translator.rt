// What the notes of the instructions come to, now that all labels are known: checks
// 22 and 23, and the halfwords.
ghost use Rattle.std.specs.Prelude.{◌≡◌};
ghost use Rattle.assembler.specs.Assemble.{check_from};
ghost use Rattle.assembler.specs.Passes.{Known, Aimed, Ready, items_of, noted_meaning, above_as};
ghost use Rattle.assembler.specs.Passes.{made_of, translated_as, Written};

use super::definitions::definition_of;
use super::fields::branching;
use super::reader::{Counted, Note, Says};
use super::refusal::TextRefusal;
use super::room::put;
use labels::Entry;
use refusals::Check;

// The halfword of instruction `i`, by its notes.
fn said_of(text: &[u8], table: &[Entry], says: Says, i: u64) -> Result<u16, Check>
    requires known { Known text.now table.now }
    requires named { Aimed says }
    ensures { result ≡ noted_meaning (items_of text.now) i says }
{
    match says {
        Says::Halfword(halfword) => Ok(halfword),
        Says::Branch { cond, name } => {
            let Some(number) = definition_of(text, table, name) else {
                return Err(Check::Label);
            };
            branching(cond, i, number)
        }
    }
}

// Refuses a text whose flaw lies above a line.
fn above(flaw: Option<TextRefusal>, line: u64) -> Result<(), TextRefusal>
    ensures { result ≡ above_as flaw line }
{
    match flaw {
        Some(refusal) if refusal.line < line => Err(refusal),
        _ => Ok(()),
    }
}

// Goes through the notes of all instructions, and puts their halfwords as far as
// the output reaches. The second pass lends none, and the third the output.
pub(crate) fn translate(
    text: &[u8],
    table: &[Entry],
    notes: &[Note],
    counted: Counted,
    out: &mut [u16],
) -> Result<(), TextRefusal>
    requires { Ready text.now table.now notes.now counted }
    ensures value { result ≡ translated_as
        (made_of (check_from (items_of text.now) 1 0 (items_of text.now))) }
    ensures written { Written (made_of (check_from (items_of text.now) 1 0 (items_of text.now))) 0
        out.old out.new }
{
    let Counted { n, flaw } = counted;
    for i in 0..n as usize {
        let Note { says, line } = notes[i];
        above(flaw, line)?;
        match said_of(text, table, says, i as u64) {
            Ok(halfword) => put(out, i as u64, halfword),
            Err(check) => return Err(TextRefusal { check, line }),
        }
    }
    match flaw {
        Some(refusal) => Err(refusal),
        None => Ok(()),
    }
}
