// The format of an image: its numbers, the check of a file, and the code that an
// accepted file holds.
#![tactic(auto)]

mod block;
mod checker;
mod code;
mod file;
mod format;

pub use checker::{Layout, check, is_window};
pub use code::code_at;
pub use format::{
    BLOCK_BYTES, BLOCK_CODE, BLOCK_HALFWORDS, HEADER_BYTES, HEADER_HALFWORDS, MARK, MOST_BLOCKS,
    MOST_BYTES, MOST_CODE,
};
