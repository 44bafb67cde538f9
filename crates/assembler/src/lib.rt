// The assembler: the code of a text.
#![tactic(auto)]

mod assembler;
mod definitions;
mod fields;
mod reader;
mod refusal;
mod room;
mod translator;

pub use assembler::assemble;
pub use refusal::TextRefusal;
