// The code of a file, by the number of the instruction.
ghost use Rattle.std.specs.Prelude.{◌≡◌, ◌+◌, ◌≤◌, length};
ghost use Rattle.image.specs.Code.{code_position, code_at};

use super::format::{BLOCK_BYTES, BLOCK_CODE, HEADER_BYTES};
use units::{InstructionIndex, halfword_at};

// The halfword of instruction `i`, for a caller that knows that the file has it:
// an accepted file has every instruction of its code. It asks for no more than
// that, so that a file which isn't accepted can be shown, too.
#[tactic(auto, unfolding(crate::specs::Code::code_at))]
pub fn code_at(file: &[u8], i: InstructionIndex) -> u16
    requires { code_position i.0 + 2 ≤ length file.now }
    ensures { result ≡ code_at file.now i.0 }
{
    let number = i.0 as usize;
    let start = number / BLOCK_CODE * BLOCK_BYTES + HEADER_BYTES;
    halfword_at(file, start + 2 * (number % BLOCK_CODE))
}
