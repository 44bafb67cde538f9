// One step of the PAW processor, by value: a run with a budget of 1, so the
// run's loop is the only code that executes instructions.
#![tactic(auto)]

mod value;

pub use value::{Stepped, step_value};
