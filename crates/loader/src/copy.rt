// What a load does to memory.
ghost use Rattle.std.specs.Prelude.{◌≡◌, ℕ, ◌+◌, ◌*◌, ◌≤◌, ◌<◌, length, replicate};
ghost use Rattle.units.specs.Address.{memory_bytes};
ghost use Rattle.image.specs.Code.{code_position};
ghost use Rattle.image.specs.Format.{block_bytes, block_code, header_bytes};
ghost use Rattle.loader.specs.Copy.{IsCopied, code_part, with_part, cleared};

use image::{BLOCK_BYTES, BLOCK_CODE, HEADER_BYTES};
use units::{ByteAddress, InstructionIndex, Memory};

// Copies the first `n` instructions of block `k` to where they go: they lie in
// one row, in the file and in memory. A loop, which the compiler does many bytes at
// a time: `copy_from_slice` would ask the C library for `memmove`.
fn copy_block(file: &[u8], memory: &mut Memory, k: usize, n: usize)
    requires in_memory { 2 * (block_code * k + n) ≤ memory_bytes }
    requires first { block_code * k < 65536 }
    requires in_file { block_bytes * k + header_bytes + 2 * n ≤ length file.now }
    ensures { memory.new ≡ with_part (2 * (block_code * k)) (code_part file.now k n) memory.old }
{
    let first = ByteAddress::from(InstructionIndex((BLOCK_CODE * k) as u16));
    let from = BLOCK_BYTES * k + HEADER_BYTES;
    let to = first.0 as usize;
    for i in 0..2 * n {
        memory[to + i] = file[from + i];
    }
}

// Copies the first `count` instructions of a file to address 0, block by block.
pub(crate) fn copy_code(file: &[u8], memory: &mut Memory, count: InstructionIndex)
    requires count_bound { 2 * count.0 ≤ memory_bytes }
    requires by_index { (i : ℕ) → i < count.0 → code_position i + 2 ≤ length file.now }
    ensures { IsCopied file.now count.0 memory.old memory.new }
{
    let all = count.0 as usize;
    for k in 0..all.div_ceil(BLOCK_CODE) {
        let n = BLOCK_CODE.min(all - BLOCK_CODE * k);
        copy_block(file, memory, k, n);
    }
}

// Sets every byte that it is lent to 0: a window is lent to it.
pub(crate) fn clear(part: &mut [u8])
    ensures { part.new ≡ replicate (length part.old) 0 }
{
    part.fill(0);
}

// Clears the window: its part of memory is lent on.
pub(crate) fn clear_window(memory: &mut [u8], start: usize, end: usize)
    requires { (start ≤ end) × (end ≤ length memory.old) }
    ensures { memory.new ≡ cleared start end memory.old }
{
    clear(&mut memory[start..end]);
}
