// Checks 10 to 14: each passes, or answers which has failed.
ghost use Rattle.std.specs.Prelude.{false, ◌≡◌, ◌<◌};
ghost use Rattle.units.specs.Field.{field};
ghost use Rattle.isa.specs.Access.{halfword_access, byte_access};
ghost use Rattle.checks.specs.Parts.{access_check, write_check, target_check, last_check};
ghost use Rattle.checks.specs.Questions.{answer_at};

use domain::Value;
use image::Layout;
use refusals::{Check, Refusal};
use units::ByteAddress;

// R15 is the PC.
pub const PC: u8 = 15;

// Check 14 of the last halfword of a code.
pub fn check_last(h: u16) -> Result<(), Check>
    ensures { result ≡ last_check h }
{
    if h >= 256 {
        return Err(Check::LastHalt);
    }
    Ok(())
}

// Checks 10 and 11 of a load or store of `size` bytes, `offset` bytes past a
// base; stores are asked no more than loads. The sums are wider than an address,
// so that a high base can't wrap into the window.
fn check_access(base: Value, layout: Layout, offset: u16, size: u8) -> Result<(), Check>
    requires { 0 < size }
    ensures { result ≡ access_check base layout
        (record { base = 0; offset = offset; size = size; stores = false }) }
{
    let start = layout.window_start as u32;
    let end = start + layout.window_length as u32;
    let low = base.low as u32 + offset as u32;
    let high = base.high as u32 + offset as u32 + size as u32;
    if low < start || high > end {
        return Err(Check::Access);
    }
    if size == 2 && base.zeros < 2 {
        return Err(Check::Alignment);
    }
    Ok(())
}

// The same of a LDR or STR, whose offset counts in fours.
pub fn check_halfword(base: Value, layout: Layout, h: u16) -> Result<(), Check>
    ensures { result ≡ access_check base layout (halfword_access (field h 6 5) (field h 3 3)) }
{
    check_access(base, layout, 4 * (units::bits(h, 6, 5) as u16), 2)
}

// The same of a LDRB or STRB.
pub fn check_byte(base: Value, layout: Layout, h: u16) -> Result<(), Check>
    ensures { result ≡ access_check base layout (byte_access (field h 6 5) (field h 3 3)) }
{
    check_access(base, layout, units::bits(h, 6, 5) as u16, 1)
}

// Check 12 of an instruction that writes Rd.
pub fn check_write(rd: u8) -> Result<(), Check>
    ensures { result ≡ write_check rd }
{
    if rd == PC {
        return Err(Check::PcWrite);
    }
    Ok(())
}

// Check 13 of a branch that goes to an address.
pub fn check_target(target: ByteAddress, layout: Layout) -> Result<(), Check>
    ensures { result ≡ target_check layout target }
{
    if target.0 < layout.code_bytes {
        Ok(())
    } else {
        Err(Check::Target)
    }
}

// What the checks of the instruction at an address answer that have found
// `found`: a refusal says where.
pub fn answer_at(a: ByteAddress, found: Result<(), Check>) -> Result<(), Refusal>
    ensures { result ≡ answer_at a found }
{
    found.map_err(|check| Refusal::at(check, a))
}
