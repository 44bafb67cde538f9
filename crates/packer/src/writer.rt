// The image of a code, put into bytes.
ghost use Rattle.std.specs.Prelude.{◌≡◌, ℕ, ◌-◌, ◌*◌, ◌<◌, ◌≤◌, length, slice_index};
ghost use Rattle.image.specs.Format.{block_bytes, block_halfwords, header_halfwords, most_code};
ghost use Rattle.packer.specs.Pack.{blocks_needed, used_in, header_of, image_of};
ghost use Rattle.image.specs.Block.{block_of};
ghost use Rattle.packer.specs.Writing.{Written, code_end};

use image::{BLOCK_BYTES, BLOCK_CODE, BLOCK_HALFWORDS, HEADER_BYTES, HEADER_HALFWORDS, MARK};
use sums::add_to_sum;
use units::put_halfword;

// How many blocks `n` code halfwords need.
pub(crate) fn blocks_needed(n: usize) -> usize
    ensures { result ≡ blocks_needed n }
{
    n.div_ceil(BLOCK_CODE)
}

// What an image is made of: code that fits one, and the window of `l` bytes from
// `w`.
#[derive(Clone, Copy)]
pub(crate) struct Plan<'a> {
    pub(crate) code: &'a [u16],
    pub(crate) w: u16,
    pub(crate) l: u16,
    ghost fits: { length code.now ≤ most_code },
}

impl<'a> Plan<'a> {
    // How many blocks the image has.
    fn blocks(self) -> usize
        ensures { result ≡ blocks_needed (length self.entry.code.now) }
    {
        blocks_needed(self.code.len())
    }

    // How many code halfwords stand in block `k`.
    fn used_in(self, k: usize) -> usize
        requires { k < blocks_needed (length self.code.now) }
        ensures { result ≡ used_in (length self.entry.code.now) k }
    {
        BLOCK_CODE.min(self.code.len() - BLOCK_CODE * k)
    }

    // Halfword `j` of the header of block `k`.
    fn header_halfword(self, k: usize, j: usize) -> u16
        requires { (k < blocks_needed (length self.code.now)) × (j < header_halfwords) }
        ensures { result ≡ slice_index (header_of self.entry.code.now self.entry.w self.entry.l k) j }
    {
        match j {
            0 => MARK,
            1 => k as u16,
            2 => self.used_in(k) as u16,
            3 => self.w,
            4 => self.l,
            _ => self.blocks() as u16,
        }
    }

    // Writes the header of block `k`, and sums it.
    fn write_header(self, k: usize, block: &mut [u8; BLOCK_BYTES]) -> u16
        requires { k < blocks_needed (length self.code.now) }
        ensures { Written self.entry.code.now self.entry.w self.entry.l k header_halfwords block.new result }
    {
        let mut sum = 0;
        for j in 0..HEADER_HALFWORDS {
            let h = self.header_halfword(k, j);
            put_halfword(block, 2 * j, h);
            sum = add_to_sum(sum, h);
        }
        sum
    }

    // Writes the code of block `k` after its header, and adds it to the header's
    // sum. There is no test inside the loop, so that the compiler does many
    // halfwords at a time.
    fn write_code(self, k: usize, block: &mut [u8; BLOCK_BYTES], header: u16) -> u16
        requires there { k < blocks_needed (length self.code.now) }
        requires written { Written self.code.now self.w self.l k header_halfwords block.old header }
        ensures { Written self.entry.code.now self.entry.w self.entry.l k (code_end self.entry.code.now k)
            block.new result }
    {
        let first = BLOCK_CODE * k;
        let used = self.used_in(k);
        let mut sum = header;
        for i in 0..used {
            let h = self.code[first + i];
            put_halfword(block, HEADER_BYTES + 2 * i, h);
            sum = add_to_sum(sum, h);
        }
        sum
    }

    // Writes zeros after the code of block `k`, up to its last halfword.
    fn write_zeros(self, k: usize, block: &mut [u8; BLOCK_BYTES])
        requires { k < blocks_needed (length self.code.now) }
        ensures { (sum : ℕ)
            → Written self.entry.code.now self.entry.w self.entry.l k (code_end self.entry.code.now k) block.old sum
            → Written self.entry.code.now self.entry.w self.entry.l k (block_halfwords - 1) block.new sum }
    {
        for j in HEADER_HALFWORDS + self.used_in(k)..BLOCK_HALFWORDS - 1 {
            put_halfword(block, 2 * j, 0);
        }
    }

    // Writes block `k` over a part as long as one: its header, its code, zeros, and
    // the halfword that makes the sum 0.
    fn write_block(self, k: usize, part: &mut [u8])
        requires there { k < blocks_needed (length self.code.now) }
        requires long { length part.old ≡ block_bytes }
        ensures { part.new ≡ block_of (image_of self.entry.code.now self.entry.w self.entry.l) k }
    {
        if let Some(block) = part.as_mut_array() {
            let header = self.write_header(k, block);
            let sum = self.write_code(k, block, header);
            self.write_zeros(k, block);
            put_halfword(block, BLOCK_BYTES - 2, 0u16.wrapping_sub(sum));
        }
    }

    // Writes the whole image over an output of its length.
    pub(crate) fn write_image(self, out: &mut [u8])
        requires { length out.old ≡ block_bytes * blocks_needed (length self.code.now) }
        ensures { out.new ≡ image_of self.entry.code.now self.entry.w self.entry.l }
    {
        for k in 0..self.blocks() {
            let start = BLOCK_BYTES * k;
            self.write_block(k, &mut out[start..start + BLOCK_BYTES]);
        }
    }
}
