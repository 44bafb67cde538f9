// The C face of the assembler and the lister, with answers in plain numbers. Its
// archive is merged with that of `paw` into one library.
#![tactic(auto)]

mod answers;
mod texts;

pub use texts::{paw_assemble, paw_list};
