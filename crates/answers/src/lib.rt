// What the firmware's parts answer, as plain numbers, as the C face gives them
// out.
#![tactic(auto)]

mod answers;
mod instructions;

pub use answers::{answer_word, given_word, packed_number};
pub use instructions::encoded_word;
