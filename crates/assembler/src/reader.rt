// The pass over a text: check 21, the number of instructions, the table of labels,
// and notes of each instruction, so that no line is read twice.
ghost use Rattle.std.specs.Prelude.{[], ◌≡◌, set};
ghost use Rattle.labels.specs.Table.{table_after};
ghost use Rattle.text.specs.Text.{lines_of};
ghost use Rattle.assembler.specs.Assemble.{read_from, instructions_in};
ghost use Rattle.assembler.specs.Labels.{Holds, aim_of};
ghost use Rattle.assembler.specs.Passes.{Known, items_of, item_in};
ghost use Rattle.assembler.specs.Reading.{label_no, instruction_no, line_no, first_flaw, note_of, Named};
ghost use Rattle.assembler.specs.Reading.{read_as, Entered, entries_after, notes_after};

use super::definitions::{next_number, scan};
use super::fields::{field_of, narrow};
use super::refusal::TextRefusal;
use super::room::put;
use labels::{Entry, Probed, define};
use refusals::Check;
use syntax::{Item, Line, parse};

// What is noted of an instruction: its halfword, or of a branch, whose label may
// stand further down, its condition and the name.
#[derive(Clone, Copy)]
pub enum Says {
    Halfword(u16),
    Branch { cond: u8, name: u64 },
}

// That, and the instruction's line.
#[derive(Clone, Copy)]
pub struct Note {
    pub says: Says,
    pub line: u64,
}

pub(crate) const BLANK: Note = Note {
    says: Says::Halfword(0),
    line: 0,
};

// How many instructions a text has, and the first line that fails 22 or 23 whatever
// branches do.
#[derive(Clone, Copy)]
pub struct Counted {
    pub n: u64,
    pub flaw: Option<TextRefusal>,
}

// The first flaw, where this is the outcome of line `line`.
fn first_flaw(
    flaw: Option<TextRefusal>,
    outcome: Result<(), Check>,
    line: u64,
) -> Option<TextRefusal>
    ensures { result ≡ first_flaw flaw outcome line }
{
    let Err(check) = outcome else {
        return flaw;
    };
    flaw.or(Some(TextRefusal { check, line }))
}

// Enters a label's definition, which fails check 22, if something above it defines
// the name.
fn enter_label(above: &[u8], table: &mut [Entry], name: u64, i: u64) -> Result<(), Check>
    requires known { Known above.now table.old }
    requires named { name ≡ 0 → ⊥ }
    ensures { (result ≡ label_no (aim_of (items_of above.now) name))
        × (table.new ≡ table_after table.old name i) }
{
    match define(table, name, i) {
        Probed::Here(_) => Err(Check::Label),
        Probed::Free(_) => Ok(()),
        Probed::Crowded => match scan(above, name) {
            Some(_) => Err(Check::Label),
            None => Ok(()),
        },
    }
}

// Notes instruction `i` on line `k`, whose values may fail check 23. A branch is not
// asked until all labels are known.
fn enter_instruction(notes: &mut [Note], item: Item, k: u64, i: u64) -> Result<(), Check>
    ensures { (result ≡ instruction_no (item_in item) i)
        × (notes.new ≡ set notes.old i (note_of (item_in item) i k)) }
{
    if item.row == 17 {
        let says = Says::Branch {
            cond: narrow(item.values.a),
            name: item.values.b,
        };
        put(notes, i, Note { says, line: k });
        return Ok(());
    }
    let halfword = field_of(item, i, 0);
    let says = Says::Halfword(halfword.unwrap_or(0));
    put(notes, i, Note { says, line: k });
    halfword?;
    Ok(())
}

// Enters line `k`, above which there are `i` instructions, and answers what it
// fails whatever branches do.
fn enter(
    above: &[u8],
    table: &mut [Entry],
    notes: &mut [Note],
    item: Item,
    k: u64,
    i: u64,
) -> Result<(), Check>
    requires known { Known above.now table.old }
    requires named { Named item }
    requires i_value { i ≡ instructions_in (items_of above.now) }
    ensures { (result ≡ line_no (items_of above.now) (item_in item))
        × (table.new ≡ entries_after item.row table.old item.values.a i)
        × (notes.new ≡ notes_after item.row notes.old i (note_of (item_in item) i k)) }
{
    if item.row == 0 {
        return enter_label(above, table, item.values.a, i);
    }
    enter_instruction(notes, item, k, i)
}

// Reads all lines: enters their labels into the empty table, and notes their
// instructions as far as there is room.
pub(crate) fn read_all(
    text: &[u8],
    table: &mut [Entry],
    notes: &mut [Note],
) -> Result<Counted, TextRefusal>
    requires { Holds table.old [] }
    ensures { (result ≡ read_as (read_from 1 (lines_of text.now)))
        × Entered table.new notes.new (read_from 1 (lines_of text.now)) }
{
    let mut at = 0;
    let mut k: u64 = 1;
    let mut i: u64 = 0;
    let mut flaw = None;
    // No count: a line says where the next one starts.
    while at < text.len() {
        let Some(Line { item, next }) = parse(text, at) else {
            return Err(TextRefusal {
                check: Check::Line,
                line: k,
            });
        };
        let outcome = enter(&text[..at], table, notes, item, k, i);
        flaw = first_flaw(flaw, outcome, k);
        i = next_number(item.row, i);
        at = next;
        k += 1;
    }
    Ok(Counted { n: i, flaw })
}
