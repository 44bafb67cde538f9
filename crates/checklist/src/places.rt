// What a file has where a check failed.
ghost use Rattle.std.specs.Prelude.{◌≡◌, ◌+◌, leb, length};
ghost use Rattle.std.specs.Bool.{then_some};
ghost use Rattle.units.specs.Bytes.{halfword_at};
ghost use Rattle.image.specs.Code.{code_position, code_at};

use digits::Hex;
use image::{BLOCK_BYTES, BLOCK_CODE, HEADER_BYTES, MOST_BYTES};
use refusals::{Check, Place, Refusal};
use std::io;
use streams::Ascii;
use units::{ByteAddress, InstructionIndex};

// The halfword at a byte of the file, if it has one there.
fn halfword_at(file: &[u8], p: usize) -> Option<u16>
    ensures { result ≡ then_some (leb (p + 2) (length file.now)) (halfword_at file.now p) }
{
    if file.len() < 2 || file.len() - 2 < p {
        return None;
    }
    Some(units::halfword_at(file, p))
}

// The halfword of instruction `i`, if the file has it.
fn code_at(file: &[u8], i: InstructionIndex) -> Option<u16>
    ensures { result ≡ then_some (leb (code_position i.0 + 2) (length file.now)) (code_at file.now i.0) }
{
    let number = usize::from(i.0);
    let start = number / BLOCK_CODE * BLOCK_BYTES + HEADER_BYTES + 2 * (number % BLOCK_CODE);
    if start + 2 > file.len() {
        return None;
    }
    Some(image::code_at(file, i))
}

// What a block says of itself.
#[derive(Clone, Copy)]
struct Header {
    mark: u16,
    number: u16,
    used: u16,
    window_start: u16,
    window_length: u16,
    blocks: u16,
}

impl Header {
    // The header of block `k`, 0 where the file has none.
    fn of(file: &[u8], k: u8) -> Header {
        let field = |j: usize| {
            halfword_at(file, BLOCK_BYTES * usize::from(k) + 2 * j).unwrap_or(0)
        };
        Header {
            mark: field(0),
            number: field(1),
            used: field(2),
            window_start: field(3),
            window_length: field(4),
            blocks: field(5),
        }
    }
}

fn print_length(rt: &impl Print, file: &[u8]) -> io::Result<()> {
    if file.len() > MOST_BYTES {
        return println!(rt; "  Its length in bytes is above {MOST_BYTES}.");
    }
    println!(rt; "  Its length in bytes is {}.", file.len())
}

// The length in bytes of the code of a file whose blocks are in order.
fn code_bytes(file: &[u8]) -> u16 {
    let Some(last) = (file.len() / BLOCK_BYTES).checked_sub(1) else {
        return 0;
    };
    let used = Header::of(file, (last % 64) as u8).used;
    let halfwords = BLOCK_CODE * (last % 64) + usize::from(used);
    ByteAddress::from(InstructionIndex((halfwords % 65536) as u16)).0
}

fn print_layout(rt: &impl Print, file: &[u8]) -> io::Result<()> {
    let first = Header::of(file, 0);
    println!(rt;
        "  The code has {} bytes, w is {}, l is {}.",
        code_bytes(file),
        first.window_start,
        first.window_length
    )
}

// What a block says of itself, and what that was held to, where it is the file's.
fn print_block(rt: &impl Print, file: &[u8], check: Check, k: u8) -> io::Result<()> {
    let block = Header::of(file, k);
    println!(rt;
        "  Block {k} starts with {} and says: number {} of {}, {} halfwords of code, w {}, l {}.",
        Hex(block.mark),
        block.number,
        block.blocks,
        block.used,
        block.window_start,
        block.window_length
    )?;
    match check {
        Check::Numbering => println!(rt;
            "  The number of blocks in the file is {}.",
            file.len() / BLOCK_BYTES
        ),
        Check::SameWindow => {
            let first = Header::of(file, 0);
            println!(rt;
                "  Block 0 says: w {}, l {}.",
                first.window_start, first.window_length
            )
        }
        _ => Ok(()),
    }
}

// The halfword at an address, and the instruction that it is, as a listing has it.
fn print_instruction(rt: &impl Print, file: &[u8], a: ByteAddress) -> io::Result<()> {
    let Some(h) = code_at(file, InstructionIndex::from(a)) else {
        return Ok(());
    };
    print!(rt; "  At address {} stands {}", a.0, Hex(h))?;
    let line = lister::instruction_line(h, a);
    if line.as_bytes().is_empty() {
        println!(rt; ", which is no instruction.")
    } else {
        print!(rt; ": {}", Ascii(line.as_bytes()))
    }
}

// What stands where a check failed: the instruction, what the block says, or of the
// file as a whole what the check is about.
pub(crate) fn print_place(rt: &impl Print, file: &[u8], refusal: Refusal) -> io::Result<()> {
    match refusal.place {
        Place::Address(a) => print_instruction(rt, file, a),
        Place::Block(k) => print_block(rt, file, refusal.check, k),
        Place::Nowhere => match refusal.check {
            Check::Window => print_layout(rt, file),
            _ => print_length(rt, file),
        },
    }
}
