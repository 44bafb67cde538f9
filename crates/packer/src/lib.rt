// The packer: makes the image of a code and its window.
#![tactic(auto)]

mod packer;
mod writer;

pub use packer::pack;
