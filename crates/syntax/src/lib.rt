// The syntax of an assembler text: its lines, read straight from the text. The
// definition has a pattern with slots for each.
#![tactic(auto)]

mod operands;
mod parser;
mod slots;

pub use parser::{Item, Line, Values, parse};
