// The blocks of a file: each one, the checks of them all, and what they say.
ghost use Rattle.std.specs.Prelude.{◌≡◌, ◌<◌, ◌≤◌, Ok};
ghost use Rattle.image.specs.Format.{most_blocks};
ghost use Rattle.image.specs.Block.{blocks_in, block_of};
ghost use Rattle.image.specs.Window.{WindowIs};
ghost use Rattle.image.specs.Check.{first_no, block_checks, checks_below, layout_of};

use super::block::{
    Block, field, has_window, is_balanced, is_filled, is_marked, is_numbered, window_word,
};
use super::checker::Layout;
use super::format::{BLOCK_BYTES, BLOCK_CODE};
use refusals::{Check, Refusal};
use units::{ByteAddress, InstructionIndex};

// A file of 1 to 64 whole blocks, and how many it has.
#[derive(Clone, Copy)]
pub(crate) struct Blocks<'a> {
    pub(crate) file: &'a [u8],
    pub(crate) count: u8,
    ghost all: { count ≡ blocks_in file.now },
    ghost some: { 1 ≤ count },
    ghost few: { count ≤ most_blocks },
}

impl<'a> Blocks<'a> {
    // Block `k`.
    fn block(self, k: u8) -> &'a Block
        requires { k < self.count }
        ensures { result.now ≡ block_of self.entry.file.now k }
    {
        let (blocks, _) = self.file.as_chunks::<BLOCK_BYTES>();
        &blocks[k as usize]
    }

    // Checks 3 to 7 of block `k`, where the first block has this window.
    #[tactic(auto, unfolding(crate::specs::Check::first_no))]
    fn check_block(self, k: u8, window: u32) -> Result<(), Refusal>
        requires there { k < self.count }
        requires window_is { WindowIs (block_of self.file.now 0) window }
        ensures { result ≡ first_no (block_checks self.entry.file.now k) }
    {
        let block = self.block(k);
        if !is_marked(block) {
            return Err(Refusal::in_block(Check::Mark, k));
        }
        if !is_balanced(block) {
            return Err(Refusal::in_block(Check::Sum, k));
        }
        if !is_numbered(block, k, self.count) {
            return Err(Refusal::in_block(Check::Numbering, k));
        }
        if !is_filled(block, k + 1 == self.count) {
            return Err(Refusal::in_block(Check::Filling, k));
        }
        if !has_window(block, window) {
            return Err(Refusal::in_block(Check::SameWindow, k));
        }
        Ok(())
    }

    // Checks 3 to 7 of each block, first to last.
    pub(crate) fn check(self) -> Result<(), Refusal>
        ensures { result ≡ first_no (checks_below self.entry.file.now self.entry.count) }
    {
        let window = window_word(self.block(0));
        for k in 0..self.count {
            self.check_block(k, window)?;
        }
        Ok(())
    }

    // c, w and l of a file whose blocks have passed: the code ends where the
    // instruction after its last would stand.
    pub(crate) fn layout(self) -> Layout
        requires { first_no (checks_below self.file.now self.count) ≡ Ok tt }
        ensures { result ≡ layout_of self.entry.file.now }
    {
        let before = self.count - 1;
        let first = self.block(0);
        let used = field(self.block(before), 2) as usize;
        let end = ByteAddress::from(InstructionIndex((BLOCK_CODE * before as usize + used) as u16));
        Layout {
            code_bytes: end.0,
            window_start: field(first, 3),
            window_length: field(first, 4),
        }
    }
}
