// The C face of the firmware: every entry point under a name that C and Rust
// can link, with answers in plain numbers. include/ and rust/paw say how each
// answer is taken apart; specs/ here and in `answers`, `endings` and `words`
// gives every number its meaning.
#![tactic(auto)]

mod date;
mod images;
mod instructions;
mod machines;
mod programs;
mod version;

pub use date::paw_manual_date;
pub use images::{paw_add_to_sum, paw_block, paw_check, paw_pack};
pub use instructions::{paw_decode, paw_encode};
pub use machines::{paw_run, paw_step};
pub use programs::{paw_load, paw_verify};
pub use version::paw_version;
