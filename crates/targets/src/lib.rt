// Where the branches of a code go, and marks for the instructions that they go to.
#![tactic(auto)]

mod branch;
mod marks;

pub use branch::jump;
pub use marks::Marks;
