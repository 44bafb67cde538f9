// Where a name is defined first: by the table, or where that can't tell, by the
// text.
ghost use Rattle.std.specs.Prelude.{◌&&◌, ◌≡◌, ◌<◌, eqb};
ghost use Rattle.syntax.specs.Syntax.{label_row};
ghost use Rattle.assembler.specs.Labels.{aim_of};
ghost use Rattle.assembler.specs.Passes.{AllRead, Known, items_of};
ghost use Rattle.assembler.specs.Reading.{count_after};

use labels::{Entry, Labelled, lookup};
use syntax::{Item, Line, parse};

// Whether a line defines the name.
fn defines(item: Item, name: u64) -> bool
    ensures { result ≡ (eqb item.row label_row && eqb item.values.a name) }
{
    item.row == 0 && item.values.a == name
}

// The number of the instruction after a line of this row.
pub(crate) fn next_number(row: usize, i: u64) -> u64
    requires { i < 18446744073709551615 }
    ensures { result ≡ count_after row i }
{
    if row == 0 { i } else { i + 1 }
}

// A name's first definition, the number of the instruction that follows: goes
// through the lines from the top.
pub(crate) fn scan(text: &[u8], name: u64) -> Option<u64>
    requires { AllRead text.now }
    ensures { result ≡ aim_of (items_of text.now) name }
{
    let mut at = 0;
    let mut i: u64 = 0;
    // No count: a line says where the next one starts.
    while at < text.len() {
        let Line { item, next } = parse(text, at)?;
        if defines(item, name) {
            return Some(i);
        }
        i = next_number(item.row, i);
        at = next;
    }
    None
}

pub(crate) fn definition_of(text: &[u8], table: &[Entry], name: u64) -> Option<u64>
    requires known { Known text.now table.now }
    requires named { name ≡ 0 → ⊥ }
    ensures { result ≡ aim_of (items_of text.now) name }
{
    match lookup(table, name) {
        Labelled::Defined(number) => Some(number),
        Labelled::Undefined => None,
        Labelled::Unknown => scan(text, name),
    }
}
