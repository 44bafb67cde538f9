// Steps and runs of a machine by value, their endings and what they touched as
// numbers, as the C face gives them out.
#![tactic(auto)]

mod number;
mod run;
mod step;

pub use number::After;
pub use run::run_numbered;
pub use step::step_numbered;
