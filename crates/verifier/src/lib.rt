// The verifier: decides, before a program runs, that it will keep to its code
// and its window. One pass over the code finds the branch targets; one walk
// upward carries an abstract value for each register and checks each
// instruction with the values before it.
#![tactic(auto)]

mod code;
mod marks;
mod state;
mod verifier;
mod visits;

pub use verifier::verify;
