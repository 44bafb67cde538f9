// Refusals: the first check that failed, and its place. Every part that puts
// checks answers with one.
#![tactic(auto)]

mod check;
mod refusal;

pub use check::Check;
pub use refusal::{Place, Refusal};
