// What instructions work out: results, the flags that speak of them, and the
// conditions of branches.
#![tactic(auto)]

mod conditions;
mod control;
mod results;
mod status;

pub use control::Control;
pub use results::{difference, shift, sum};
pub use status::Status;
