// The PAW processor: its machine, and what each instruction does to it. Memory is
// the caller's, 65,536 bytes; code may read, write and execute any of them.
#![tactic(auto)]

mod executor;
mod held;
mod instructions;
mod machine;
mod memory;
mod outcome;

pub use executor::fetch_and_execute;
pub use held::Executed;
pub use machine::Machine;
pub use outcome::{Outcome, Stop};
