// A run of the PAW processor: steps until a budget is spent.
#![tactic(auto)]

mod lent;
mod notes;
mod runs;

pub use lent::{RanLent, run_lent};
pub use notes::note_left;
pub use runs::{Ran, RunOutcome, run};
