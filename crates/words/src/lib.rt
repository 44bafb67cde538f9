// Instructions as 32-bit words, for callers that have no enums: the kind in the
// top byte, then the fields in their order.
#![tactic(auto)]

mod from_word;
mod to_word;

pub use from_word::instruction_of;
pub use to_word::decoded_word;
