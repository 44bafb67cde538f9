// Lines: labels, branches and all other instructions, told apart by what they
// begin with.
ghost use Rattle.std.specs.Prelude.{◌≡◌, ◌+◌, ◌≤◌, length, get_or, drop};
ghost use Rattle.text.specs.Text.{quoted, lines_of};
ghost use Rattle.syntax.specs.Parser.{parsed_at, fit_at, ended, line_fit, first_fit, instructions};
ghost use Rattle.syntax.specs.Parser.{branch_letter, four_in, row_of};

use super::operands::{end_line, operands, two_at};
use super::slots::{condition_at, name_at, number_at};
use text::{byte_at, is_small};

// The values of a line's slots in their order, at most three; 0 where there are
// fewer.
#[derive(Clone, Copy)]
pub struct Values {
    pub a: u64,
    pub b: u64,
    pub c: u64,
}

// What a line says: its row and the values of its slots. A row is a number, as it is a
// place in the definition's table of patterns, of which the theorems on texts speak.
#[derive(Clone, Copy)]
pub struct Item {
    pub row: usize,
    pub values: Values,
}

// A line: what it says, and where the next one starts.
#[derive(Clone, Copy)]
pub struct Line {
    pub item: Item,
    pub next: usize,
}

// A label: a name and a colon.
fn label(text: &[u8], at: usize) -> Option<Line>
    requires { at ≤ length text.now }
    ensures { result ≡ line_fit 0 (fit_at (ended (quoted "l:")) at (drop at text.now)) }
{
    let name = name_at(text, at)?;
    if byte_at(text, name.stop) != b':' {
        return None;
    }
    end_line(text, name.stop + 1, 0, name.value, 0, 0)
}

// A branch behind its B: a condition and a name.
fn branch(text: &[u8], at: usize) -> Option<Line>
    requires { at ≤ length text.now }
    ensures { result ≡ line_fit 17 (fit_at (ended (quoted "c l")) at (drop at text.now)) }
{
    let condition = condition_at(text, at)?;
    if byte_at(text, condition.stop) != b' ' {
        return None;
    }
    let start = condition.stop + 1;
    let name = name_at(text, start)?;
    end_line(text, name.stop, 17, condition.value, name.value, 0)
}

// A HALT behind its four letters: its note.
fn note(text: &[u8], at: usize) -> Option<Line>
    requires { at ≤ length text.now }
    ensures { result ≡ line_fit 18 (fit_at (ended (quoted " #n")) at (drop at text.now)) }
{
    if !two_at(text, at, b' ', b'#') {
        return None;
    }
    let n = number_at(text, at + 2)?;
    end_line(text, n.stop, 18, n.value, 0, 0)
}

// The first row whose lines begin with four characters, of those that are no
// branches.
#[tactic(auto, unfolding(crate::specs::Parser::row_of))]
fn row_named(name: &[u8; 4]) -> Option<usize>
    ensures { result ≡ row_of (four_in name.now) }
{
    match name {
        b"MOV " => Some(1),
        b"CMP " => Some(2),
        b"AND " => Some(3),
        b"EOR " => Some(4),
        b"ASR " => Some(5),
        b"TST " => Some(6),
        b"NEG " => Some(7),
        b"ADD " => Some(9),
        b"STR " => Some(12),
        b"LDR " => Some(13),
        b"STRB" => Some(14),
        b"LDRB" => Some(15),
        b"HALT" => Some(18),
        _ => None,
    }
}

// An instruction that is no branch: its name, and what stands behind it. The names
// of rows 14 and 15, STRB and LDRB, have their space still before them.
fn instruction(text: &[u8], at: usize) -> Option<Line>
    requires { (at ≤ length text.now) × (get_or text.now at 0 ≡ branch_letter → ⊥) }
    ensures { result ≡ first_fit 1 instructions at (drop at text.now) }
{
    let name = text[at..].first_chunk::<4>()?;
    let row = row_named(name)?;
    let end = at + 4;
    if row == 18 {
        return note(text, end);
    }
    if row < 14 {
        return operands(text, end, row);
    }
    if byte_at(text, end) != b' ' {
        return None;
    }
    operands(text, end + 1, row)
}

// Reads the line that starts at a place of a text, if there is a line feed and the
// line is one of some row. Its first character tells what it can be.
pub fn parse(text: &[u8], at: usize) -> Option<Line>
    requires { at ≤ length text.now }
    ensures { result ≡ parsed_at at (lines_of (drop at text.now)) }
{
    let first = byte_at(text, at);
    if is_small(first) {
        return label(text, at);
    }
    if first == b'B' {
        return branch(text, at + 1);
    }
    instruction(text, at)
}
