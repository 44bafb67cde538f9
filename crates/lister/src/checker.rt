// Checks 9 and 13 of a code, and the marks of its branch targets.
ghost use Rattle.std.specs.Prelude.{◌≡◌, ◌≤◌, length};
ghost use Rattle.refusals.specs.Check.{outcome};
ghost use Rattle.isa.specs.Decode.{decode_of};
ghost use Rattle.image.specs.Format.{most_code};
ghost use Rattle.targets.specs.Marks.{Unmarked};
ghost use Rattle.checks.specs.Questions.{stays_in_code, answer_at};
ghost use Rattle.lister.specs.List.{layout_for};
ghost use Rattle.lister.specs.Passes.{found_in, CheckedAs};

use checks::{answer_at, check_target};
use image::Layout;
use isa::decode;
use refusals::{Check, Refusal};
use targets::{Marks, jump};
use units::{ByteAddress, InstructionIndex};

// Where a code ends that stands from address 0 on.
fn layout_for(code: &[u16]) -> Layout
    requires { length code.now ≤ most_code }
    ensures { result ≡ layout_for code.now }
{
    let end = ByteAddress::from(InstructionIndex(code.len() as u16));
    Layout {
        code_bytes: end.0,
        window_start: 0,
        window_length: 0,
    }
}

// Check 13 of what a halfword can jump to.
fn check_jump(layout: Layout, target: Option<ByteAddress>) -> Result<(), Check>
    ensures { result ≡ outcome Check.Target (stays_in_code layout target) }
{
    match target {
        Some(a) => check_target(a, layout),
        None => Ok(()),
    }
}

// The first of checks 9 and 13 that the halfword at an address fails, if one does.
fn check_listable(layout: Layout, a: ByteAddress, h: u16) -> Result<(), Check>
    ensures { result ≡ found_in layout a (decode_of h) }
{
    match decode(h) {
        None => Err(Check::Defined),
        Some(_) => check_jump(layout, jump(a, h)),
    }
}

// Checks 9 and 13 of the halfword at an address.
fn check_at(layout: Layout, a: ByteAddress, h: u16) -> Result<(), Refusal>
    ensures { result ≡ answer_at a (found_in layout a (decode_of h)) }
{
    answer_at(a, check_listable(layout, a, h))
}

// Checks 9 and 13 of a code, instruction by instruction, lowest address first.
// Where nothing is marked yet and all pass, the marks are those of the code's
// branch targets.
pub(crate) fn check_code(code: &[u16], marks: &mut Marks) -> Result<(), Refusal>
    requires { (length code.now ≤ most_code) × Unmarked marks.old }
    ensures { CheckedAs code.now result marks.new }
{
    let layout = layout_for(code);
    for (k, &h) in code.iter().enumerate() {
        let i = InstructionIndex(k as u16);
        check_at(layout, ByteAddress::from(i), h)?;
        marks.mark_target(i, h);
    }
    Ok(())
}
