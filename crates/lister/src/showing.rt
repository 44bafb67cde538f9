// One instruction as the lister writes it.
ghost use Rattle.std.specs.Prelude.{◌≡◌, ◌≤◌, length};
ghost use Rattle.isa.specs.Decode.{decode_of};
ghost use Rattle.text.specs.Text.{line_bytes};
ghost use Rattle.lister.specs.List.{instruction_line};

use super::writer::put_instruction;
use text::{LINE_BYTES, Line, Writer};
use units::ByteAddress;

// The line of the halfword at an address, as in a listing; an empty one for a
// halfword that is no instruction.
pub fn instruction_line(h: u16, a: ByteAddress) -> Line
    ensures value { result ≡ instruction_line a (decode_of h) }
    ensures within { length result ≤ line_bytes }
{
    let mut bytes = [0u8; LINE_BYTES];
    let mut out = Writer::new(&mut bytes);
    put_instruction(&mut out, a, h);
    let length = out.at;
    Line::from_front(bytes, length)
}
