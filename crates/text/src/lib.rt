// Texts as bytes: kinds of characters, where lines end, and writing into a room.
#![tactic(auto)]

mod characters;
mod line;
mod scanner;
mod writer;

pub use characters::{in_name, is_digit, is_small};
pub use line::{LINE_BYTES, Line};
pub use scanner::{byte_at, line_end};
pub use writer::Writer;
