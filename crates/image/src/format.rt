// The numbers of an image.

// Halfword 0 of every block.
pub const MARK: u16 = 0xd0c1;

// A block's length in bytes, and in halfwords.
pub const BLOCK_BYTES: usize = 512;

pub const BLOCK_HALFWORDS: usize = 256;

// The halfwords before a block's code, and the bytes that they are.
pub const HEADER_HALFWORDS: usize = 6;

pub const HEADER_BYTES: usize = 12;

// The code halfwords that a block holds.
pub const BLOCK_CODE: usize = 249;

// An image has at most so many blocks, and so at most so many bytes and code
// halfwords.
pub const MOST_BLOCKS: usize = 64;

pub const MOST_BYTES: usize = BLOCK_BYTES * MOST_BLOCKS;

pub const MOST_CODE: usize = BLOCK_CODE * MOST_BLOCKS;
