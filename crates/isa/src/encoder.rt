// From an instruction to its halfword. Each format is put together in one
// function, which refuses a field that its bits can't hold.
ghost use Rattle.std.specs.Prelude.{◌≡◌, ◌<◌, ltb, Ok};
ghost use Rattle.isa.specs.Encode.{given, encode_of, imm_form, alu_form, high_form};
ghost use Rattle.isa.specs.Encode.{memory_form, add_pc_form, branch_form, halt_form};

use super::instruction::Instruction;
use refusals::{Check, Refusal};

// A field's value, if it is below its limit.
fn below(value: u8, limit: u8) -> Result<u16, Refusal>
    ensures { result ≡ given (ltb value limit) (Ok value) }
{
    if value < limit {
        Ok(value as u16)
    } else {
        Err(Refusal::new(Check::Fields))
    }
}

fn imm_form(op: u16, rd: u8, imm: u8) -> Result<u16, Refusal>
    requires { op < 4 }
    ensures { result ≡ imm_form op rd imm }
{
    let d = below(rd, 8)?;
    Ok((op << 11) | (d << 8) | (imm as u16) | 0x2000)
}

fn alu_form(op: u16, rs: u8, rd: u8) -> Result<u16, Refusal>
    requires { op < 16 }
    ensures { result ≡ alu_form op rs rd }
{
    let s = below(rs, 8)?;
    let d = below(rd, 8)?;
    Ok((op << 6) | (s << 3) | d | 0x4000)
}

fn high_form(op: u16, rs: u8, rd: u8) -> Result<u16, Refusal>
    requires { op < 4 }
    ensures { result ≡ high_form op rs rd }
{
    let s = below(rs, 16)?;
    let d = below(rd, 16)?;
    Ok((op << 8) | ((d >> 3) << 7) | (s << 3) | (d & 7) | 0x4400)
}

// The format for high registers leaves a comparison of two low ones undefined.
fn cmp_high_form(rs: u8, rd: u8) -> Result<u16, Refusal>
    ensures { result ≡ encode_of (Instruction.CmpHigh rs rd) }
{
    if rs < 8 && rd < 8 {
        return Err(Refusal::new(Check::Fields));
    }
    high_form(1, rs, rd)
}

fn memory_form(op: u16, offset: u8, rb: u8, rd: u8) -> Result<u16, Refusal>
    requires { op < 4 }
    ensures { result ≡ memory_form op offset rb rd }
{
    let o = below(offset, 32)?;
    let b = below(rb, 8)?;
    let d = below(rd, 8)?;
    Ok((op << 11) | (o << 6) | (b << 3) | d | 0x6000)
}

fn add_pc_form(rd: u8, imm: u8) -> Result<u16, Refusal>
    ensures { result ≡ add_pc_form rd imm }
{
    let d = below(rd, 8)?;
    Ok((d << 8) | (imm as u16) | 0xa000)
}

fn branch_form(cond: u8, offset: u8) -> Result<u16, Refusal>
    ensures { result ≡ branch_form cond offset }
{
    let c = below(cond, 14)?;
    Ok((c << 8) | (offset as u16) | 0xd000)
}

fn halt_form(note: u8) -> Result<u16, Refusal>
    ensures { result ≡ halt_form note }
{
    Ok(note as u16)
}

// The halfword of an instruction; refused where its fields form none.
pub fn encode(i: Instruction) -> Result<u16, Refusal>
    ensures { result ≡ encode_of i }
{
    match i {
        Instruction::MovImm { rd, imm } => imm_form(0, rd, imm),
        Instruction::CmpImm { rd, imm } => imm_form(1, rd, imm),
        Instruction::And { rs, rd } => alu_form(0, rs, rd),
        Instruction::Eor { rs, rd } => alu_form(1, rs, rd),
        Instruction::Asr { rs, rd } => alu_form(2, rs, rd),
        Instruction::Tst { rs, rd } => alu_form(3, rs, rd),
        Instruction::Neg { rs, rd } => alu_form(4, rs, rd),
        Instruction::Cmp { rs, rd } => alu_form(5, rs, rd),
        Instruction::AddHigh { rs, rd } => high_form(0, rs, rd),
        Instruction::CmpHigh { rs, rd } => cmp_high_form(rs, rd),
        Instruction::MovHigh { rs, rd } => high_form(2, rs, rd),
        Instruction::Str { offset, rb, rd } => memory_form(0, offset, rb, rd),
        Instruction::Ldr { offset, rb, rd } => memory_form(1, offset, rb, rd),
        Instruction::Strb { offset, rb, rd } => memory_form(2, offset, rb, rd),
        Instruction::Ldrb { offset, rb, rd } => memory_form(3, offset, rb, rd),
        Instruction::AddPc { rd, imm } => add_pc_form(rd, imm),
        Instruction::Branch { cond, offset } => branch_form(cond, offset),
        Instruction::Halt { note } => halt_form(note),
    }
}
