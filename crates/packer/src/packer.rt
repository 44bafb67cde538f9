// The packer: questions 15, 8 and 16, then the image.
ghost use Rattle.std.specs.Prelude.{◌≡◌, length};
ghost use Rattle.refusals.specs.Refusal.{refusal};
ghost use Rattle.image.specs.Check.{first_no};
ghost use Rattle.packer.specs.Pack.{pack_checks, pack_of, output_of};

use super::writer::{Plan, blocks_needed};
use image::{BLOCK_BYTES, MOST_CODE, is_window};
use refusals::{Check, Refusal};
use units::{ByteAddress, InstructionIndex};

// Checks 15, 8 and 16 of an output of `size` bytes.
#[tactic(auto, unfolding(image::specs::Check::first_no, crate::specs::Pack::check15, crate::specs::Pack::check16))]
fn check_pack(code: &[u16], w: u16, l: u16, size: usize) -> Result<(), Refusal>
    ensures { result ≡ first_no (pack_checks code.now w l size) }
{
    let n = code.len();
    if !(1..=MOST_CODE).contains(&n) {
        return Err(Refusal::new(Check::CodeLength));
    }
    let end = ByteAddress::from(InstructionIndex(n as u16));
    if !is_window(end.0, w, l) {
        return Err(Refusal::new(Check::Window));
    }
    if size != BLOCK_BYTES * blocks_needed(n) {
        return Err(Refusal::new(Check::OutputLength));
    }
    Ok(())
}

// Makes the image of `code` with the window of `l` bytes from `w`. Refused, it
// changes no byte. What the code says is not looked at.
#[tactic(auto, unfolding(crate::specs::Pack::pack_of, crate::specs::Pack::output_of))]
pub fn pack(code: &[u16], w: u16, l: u16, out: &mut [u8]) -> Result<(), Refusal>
    ensures { (result ≡ pack_of code.now w l (length out.old))
        × (out.new ≡ output_of code.now w l out.old) }
{
    check_pack(code, w, l, out.len())?;
    Plan { code, w, l }.write_image(out);
    Ok(())
}
