// A block of a file: its bytes, its fields, its sum, and checks 3 to 7.
ghost use Rattle.std.specs.Prelude.{List, ℕ, ◌≡◌, ◌-◌, ◌<◌, ◌≤◌};
ghost use Rattle.image.specs.Format.{block_halfwords, block_code};
ghost use Rattle.image.specs.Block.{halfword, block_sum_of};
ghost use Rattle.image.specs.Window.{WindowIs};
ghost use Rattle.image.specs.Check.{check3, check4, check5, used_right, unused_zero, check6, check7};

use super::format::{BLOCK_BYTES, BLOCK_CODE, BLOCK_HALFWORDS, HEADER_HALFWORDS, MARK};
use sums::add_to_sum;
use units::halfword_at;

// The bytes of a block.
pub(crate) type Block = [u8; BLOCK_BYTES];

// Halfword `j` of a block.
pub(crate) fn field(block: &Block, j: usize) -> u16
    requires { j < block_halfwords }
    ensures { result ≡ halfword block.now j }
{
    halfword_at(block, 2 * j)
}

// The sum of a block's halfwords, the last halfword first, as a driver delivers
// them.
fn block_sum(block: &Block) -> u16
    ensures { result ≡ block_sum_of block.now }
{
    let mut sum = 0;
    for j in (0..BLOCK_HALFWORDS).rev() {
        sum = add_to_sum(sum, field(block, j));
    }
    sum
}

// Check 3.
#[tactic(auto, unfolding(crate::specs::Check::check3))]
pub(crate) fn is_marked(block: &Block) -> bool
    ensures { result ≡ check3 block.now }
{
    field(block, 0) == MARK
}

// Check 4.
#[tactic(auto, unfolding(crate::specs::Check::check4))]
pub(crate) fn is_balanced(block: &Block) -> bool
    ensures { result ≡ check4 block.now }
{
    block_sum(block) == 0
}

// Check 5.
#[tactic(auto, unfolding(crate::specs::Check::check5))]
pub(crate) fn is_numbered(block: &Block, k: u8, blocks: u8) -> bool
    ensures { result ≡ check5 k blocks block.now }
{
    field(block, 1) == k as u16 && field(block, 5) == blocks as u16
}

// The code halfwords of a block from number `used` on are 0. They are put
// together with no test in between, which the compiler does many at a time.
fn is_unused_zero(block: &Block, used: usize) -> bool
    requires { used ≤ block_code }
    ensures { result ≡ unused_zero block.now used (block_code - used) }
{
    let mut all: u16 = 0;
    for n in 0..BLOCK_CODE - used {
        all |= field(block, HEADER_HALFWORDS + used + n);
    }
    all == 0
}

// The last block holds some code, a block before it is full.
fn is_used_right(used: usize, is_last: bool) -> bool
    ensures { result ≡ used_right is_last used }
{
    if is_last {
        (1..=BLOCK_CODE).contains(&used)
    } else {
        used == BLOCK_CODE
    }
}

// Check 6. A full block is as it should be, the last or not, and leaves nothing
// unused: most blocks are full.
#[tactic(auto, unfolding(crate::specs::Check::check6))]
pub(crate) fn is_filled(block: &Block, is_last: bool) -> bool
    ensures { result ≡ check6 is_last block.now }
{
    let used = field(block, 2) as usize;
    used == BLOCK_CODE || is_used_right(used, is_last) && is_unused_zero(block, used)
}

// A block's window in one number, so that two windows are compared at once.
pub(crate) fn window_word(block: &Block) -> u32
    ensures { WindowIs block.now result }
{
    (field(block, 3) as u32) + (field(block, 4) as u32) * 0x10000
}

// Check 7, of the first block's window.
#[tactic(auto, unfolding(crate::specs::Check::check7))]
pub(crate) fn has_window(block: &Block, window: u32) -> bool
    ensures { (first : List ℕ) → WindowIs first window → result ≡ check7 first block.now }
{
    window_word(block) == window
}
