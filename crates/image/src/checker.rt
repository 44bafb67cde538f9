// The check of a file: questions 2 to 8, in order, and the first no.
ghost use Rattle.std.specs.Prelude.{[], ◌∷◌, ◌≡◌};
ghost use Rattle.image.specs.Check.{whole, first_no, check2, check8, layout_fits, checked_as, check_of};

use super::file::Blocks;
use super::format::{BLOCK_BYTES, MOST_BYTES};
use refusals::{Check, Refusal};
use units::{ByteAddress, InstructionIndex, MEMORY_BYTES};

// What an accepted file says of itself, in bytes: the length of its code (the
// papers' c), and where its window starts (w) and how long it is (l).
#[derive(Clone, Copy)]
pub struct Layout {
    pub code_bytes: u16,
    pub window_start: u16,
    pub window_length: u16,
}

impl Layout {
    ghost use Rattle.units.specs.Address.{instruction_index_of};

    // How many instructions the code has: the number of the one after its last.
    pub fn count(self) -> InstructionIndex
        ensures { result ≡ instruction_index_of (record { 0 = self.code_bytes }) }
    {
        InstructionIndex::from(ByteAddress(self.code_bytes))
    }
}

// Check 2, of a file's length.
#[tactic(auto, unfolding(crate::specs::Check::check2))]
fn has_whole_blocks(file: &[u8]) -> bool
    ensures { result ≡ check2 file.now }
{
    let size = file.len();
    size % BLOCK_BYTES == 0 && BLOCK_BYTES <= size && size <= MOST_BYTES
}

// Check 8, of `c` bytes of code and the window of `l` bytes from `w`: the window
// is aligned, not empty, after the code, and ends in memory. The packer asks it of
// numbers that no file says yet, so they are no layout.
#[tactic(auto, unfolding(crate::specs::Check::check8))]
pub fn is_window(c: u16, w: u16, l: u16) -> bool
    ensures { result ≡ check8 c w l }
{
    w % 4 == 0 && l % 4 == 0 && 4 <= l && c <= w && (w as usize) + (l as usize) <= MEMORY_BYTES
}

// Check 8 of a file, the last of its checks.
#[tactic(auto, unfolding(crate::specs::Check::first_no))]
fn check_layout(layout: Layout) -> Result<Layout, Refusal>
    ensures { result ≡ checked_as layout (first_no (whole Check.Window (layout_fits layout) ∷ [])) }
{
    if !is_window(layout.code_bytes, layout.window_start, layout.window_length) {
        return Err(Refusal::new(Check::Window));
    }
    Ok(layout)
}

// Puts checks 2 to 8 to a file of any bytes and any length. Each block is read
// once for its sum.
#[tactic(auto, unfolding(crate::specs::Check::check_of, crate::specs::Check::first_no, crate::specs::Check::check2))]
pub fn check(file: &[u8]) -> Result<Layout, Refusal>
    ensures { result ≡ check_of file.now }
{
    if !has_whole_blocks(file) {
        return Err(Refusal::new(Check::FileLength));
    }
    let count = (file.len() / BLOCK_BYTES) as u8;
    let blocks = Blocks { file, count };
    blocks.check()?;
    check_layout(blocks.layout())
}
