// The reader: gives out the blocks of an accepted image, one at each call, and
// says why a file is refused or that no block is left.
#![tactic(auto)]

mod reader;

pub use reader::{BlockReader, given_at, given_checked};
