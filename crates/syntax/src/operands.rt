// The operands of instructions, up to the end of the line.
ghost use Rattle.std.specs.Prelude.{◌&&◌, [], ◌∷◌, ◌≡◌, ◌+◌, ◌≤◌, ◌<◌, eqb, ltb, length, get_or, drop};
ghost use Rattle.text.specs.Text.{quoted, feed};
ghost use Rattle.syntax.specs.Parser.{fit_at, ended, fit_or, line_fit, line_end, behind, low_only, pair_row, any_pair};
ghost use Rattle.syntax.specs.Parser.{operands_as};

use super::parser::{Item, Line, Values};
use super::slots::{number_at, register_at};
use text::byte_at;

// Whether two characters stand at a place.
pub(crate) fn two_at(text: &[u8], at: usize, c: u8, d: u8) -> bool
    requires { at ≤ length text.now }
    ensures { result ≡ (eqb (get_or text.now at 0) c && eqb (get_or text.now (at + 1) 0) d) }
{
    byte_at(text, at) == c && byte_at(text, at + 1) == d
}

// A line of the row with the values, if its line feed stands at the place.
pub(crate) fn end_line(text: &[u8], at: usize, row: usize, a: u64, b: u64, c: u64) -> Option<Line>
    ensures { result ≡ line_end row a b c (fit_at (feed ∷ []) at (drop at text.now)) }
{
    if byte_at(text, at) != b'\n' {
        return None;
    }
    Some(Line {
        item: Item {
            row,
            values: Values { a, b, c },
        },
        next: at + 1,
    })
}

// A number behind a register.
fn number_line(text: &[u8], at: usize, row: usize, a: u64) -> Option<Line>
    requires { at ≤ length text.now }
    ensures { result
        ≡ line_fit row (behind a (fit_at (ended (quoted "n")) at (drop at text.now))) }
{
    let n = number_at(text, at)?;
    end_line(text, n.stop, row, a, n.value, 0)
}

// A low register behind a low one.
fn low_pair(text: &[u8], at: usize, row: usize, a: u64) -> Option<Line>
    requires { at ≤ length text.now }
    ensures { result
        ≡ line_fit row (low_only a (fit_at (ended (quoted "r")) at (drop at text.now))) }
{
    if 8 <= a {
        return None;
    }
    let b = register_at(text, at)?;
    if 8 <= b.value {
        return None;
    }
    end_line(text, b.stop, row, a, b.value, 0)
}

fn both_low(a: u64, b: u64) -> bool
    ensures { result ≡ (ltb a 8 && ltb b 8) }
{
    a < 8 && b < 8
}

// The row of MOV, CMP or ADD with two registers, by the first row of the name.
#[tactic(auto, unfolding(crate::specs::Parser::pair_row))]
fn pair_row(row: usize, low: bool) -> usize
    ensures { result ≡ pair_row row low }
{
    match row {
        1 => 11,
        2 => if low { 8 } else { 10 },
        _ => 9,
    }
}

// A register behind another.
fn any_pair(text: &[u8], at: usize, row: usize, a: u64) -> Option<Line>
    requires { at ≤ length text.now }
    ensures { result ≡ any_pair row a (fit_at (ended (quoted "h")) at (drop at text.now)) }
{
    let b = register_at(text, at)?;
    let low = both_low(a, b.value);
    end_line(text, b.stop, pair_row(row, low), a, b.value, 0)
}

// MOV or CMP: a number behind a low register, or a register.
fn number_or_pair(text: &[u8], at: usize, row: usize, a: u64) -> Option<Line>
    requires { at ≤ length text.now }
    ensures { result ≡ fit_or row (low_only a (fit_at (ended (quoted "#n")) at (drop at text.now)))
        (any_pair row a (fit_at (ended (quoted "h")) at (drop at text.now))) }
{
    if byte_at(text, at) != b'#' {
        return any_pair(text, at, row, a);
    }
    if 8 <= a {
        return None;
    }
    number_line(text, at + 1, row, a)
}

// ADD: a register, or the PC and a number behind a low register.
fn pair_or_pc(text: &[u8], at: usize, a: u64) -> Option<Line>
    requires { at ≤ length text.now }
    ensures { result ≡ fit_or 9 (behind a (fit_at (ended (quoted "h")) at (drop at text.now)))
        (line_fit 16 (low_only a (fit_at (ended (quoted "PC, #n")) at (drop at text.now)))) }
{
    if byte_at(text, at) != b'P' {
        return any_pair(text, at, 9, a);
    }
    if 8 <= a {
        return None;
    }
    if !two_at(text, at + 1, b'C', b',') {
        return None;
    }
    if !two_at(text, at + 3, b' ', b'#') {
        return None;
    }
    number_line(text, at + 5, 16, a)
}

// The number of a place in memory, behind two registers.
fn offset_line(text: &[u8], at: usize, row: usize, a: u64, b: u64) -> Option<Line>
    requires { at ≤ length text.now }
    ensures { result
        ≡ line_fit row (behind a (behind b (fit_at (ended (quoted ", #n]")) at (drop at text.now)))) }
{
    if !two_at(text, at, b',', b' ') {
        return None;
    }
    if byte_at(text, at + 2) != b'#' {
        return None;
    }
    let n = number_at(text, at + 3)?;
    if byte_at(text, n.stop) != b']' {
        return None;
    }
    end_line(text, n.stop + 1, row, a, b, n.value)
}

// A place in memory behind a low register.
fn memory(text: &[u8], at: usize, row: usize, a: u64) -> Option<Line>
    requires { at ≤ length text.now }
    ensures { result
        ≡ line_fit row (low_only a (fit_at (ended (quoted "[r, #n]")) at (drop at text.now))) }
{
    if 8 <= a {
        return None;
    }
    if byte_at(text, at) != b'[' {
        return None;
    }
    let b = register_at(text, at + 1)?;
    if 8 <= b.value {
        return None;
    }
    offset_line(text, b.stop, row, a, b.value)
}

// The operands of an instruction, by the first row of its name. Called from two
// places of the parser, which is the fastest with them inside.
#[inline(always)]
pub(crate) fn operands(text: &[u8], at: usize, row: usize) -> Option<Line>
    requires { (at ≤ length text.now) × (0 < row) }
    ensures { result ≡ operands_as row at (drop at text.now) }
{
    let a = register_at(text, at)?;
    if !two_at(text, a.stop, b',', b' ') {
        return None;
    }
    let second = a.stop + 2;
    if row < 3 {
        return number_or_pair(text, second, row, a.value);
    }
    if row < 8 {
        return low_pair(text, second, row, a.value);
    }
    if row == 9 {
        return pair_or_pc(text, second, a.value);
    }
    memory(text, second, row, a.value)
}
