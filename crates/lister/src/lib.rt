// The lister: writes a code as an assembler text, with a label before every
// branch target.
#![tactic(auto)]

mod checker;
mod lister;
mod names;
mod operands;
mod showing;
mod writer;

pub use lister::list;
pub use showing::instruction_line;
