// The PAW instruction set: instructions and their halfwords.
#![tactic(auto)]

mod decoder;
mod encoder;
mod instruction;

pub use decoder::decode;
pub use encoder::encode;
pub use instruction::Instruction;

// The date on the title page of the manual that decides. Engineers read it
// aloud before anything else.
pub const MANUAL_DATE: [u8; 17] = *b"20 September 2015";
