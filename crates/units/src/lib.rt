// What the machine is counted in: bytes and instructions, each with an address or
// a number of its own, and halfwords, with their bytes and their fields.
#![tactic(auto)]

mod address;
mod bytes;
mod fields;

pub use address::{ByteAddress, InstructionIndex, MEMORY_BYTES, Memory};
pub use bytes::{halfword_at, put_halfword};
pub use fields::{bits, high_rd, high_rs};
