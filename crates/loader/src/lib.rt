// The loader: puts a fit program into memory.
#![tactic(auto)]

mod copy;
mod loader;

pub use loader::load;
