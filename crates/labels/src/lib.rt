// A table of labels: first definitions by name.
#![tactic(auto)]

mod table;

pub use table::{Entry, FREE, Labelled, Probed, define, lookup};
