// Checks 9 to 14 of an instruction, and the functions that put those of a load or
// store, a write, a branch and the last halfword.
#![tactic(auto)]

mod checks;

pub use checks::{
    PC, answer_at, check_byte, check_halfword, check_last, check_target, check_write,
};
