// From a halfword to its instruction: by its top three bits, then by the
// operation of its format.
ghost use Rattle.std.specs.Prelude.{◌≡◌};
ghost use Rattle.isa.specs.Decode.{decode_of, halt_of, imm_of, registers_of, alu_of};
ghost use Rattle.isa.specs.Decode.{high_of, memory_of, add_pc_of, branch_of};

use super::instruction::Instruction;
use units::{bits, high_rd, high_rs};

fn decode_halt(h: u16) -> Option<Instruction>
    ensures { result ≡ halt_of h }
{
    let note = bits(h, 0, 8);
    if h < 256 {
        Some(Instruction::Halt { note })
    } else {
        None
    }
}

fn decode_imm(h: u16) -> Option<Instruction>
    ensures { result ≡ imm_of h }
{
    let rd = bits(h, 8, 3);
    let imm = bits(h, 0, 8);
    match bits(h, 11, 2) {
        0 => Some(Instruction::MovImm { rd, imm }),
        1 => Some(Instruction::CmpImm { rd, imm }),
        _ => None,
    }
}

fn decode_alu(h: u16) -> Option<Instruction>
    ensures { result ≡ alu_of h }
{
    let rs = bits(h, 3, 3);
    let rd = bits(h, 0, 3);
    match bits(h, 6, 4) {
        0 => Some(Instruction::And { rs, rd }),
        1 => Some(Instruction::Eor { rs, rd }),
        2 => Some(Instruction::Asr { rs, rd }),
        3 => Some(Instruction::Tst { rs, rd }),
        4 => Some(Instruction::Neg { rs, rd }),
        5 => Some(Instruction::Cmp { rs, rd }),
        _ => None,
    }
}

fn decode_high(h: u16) -> Option<Instruction>
    ensures { result ≡ high_of h }
{
    let rs = high_rs(h);
    let rd = high_rd(h);
    match bits(h, 8, 2) {
        0 => Some(Instruction::AddHigh { rs, rd }),
        1 => {
            if bits(h, 6, 2) == 0 {
                None
            } else {
                Some(Instruction::CmpHigh { rs, rd })
            }
        }
        2 => Some(Instruction::MovHigh { rs, rd }),
        _ => None,
    }
}

fn decode_registers(h: u16) -> Option<Instruction>
    ensures { result ≡ registers_of h }
{
    match bits(h, 10, 3) {
        0 => decode_alu(h),
        1 => decode_high(h),
        _ => None,
    }
}

fn decode_memory(h: u16) -> Option<Instruction>
    ensures { result ≡ memory_of h }
{
    let offset = bits(h, 6, 5);
    let rb = bits(h, 3, 3);
    let rd = bits(h, 0, 3);
    match bits(h, 11, 2) {
        0 => Some(Instruction::Str { offset, rb, rd }),
        1 => Some(Instruction::Ldr { offset, rb, rd }),
        2 => Some(Instruction::Strb { offset, rb, rd }),
        _ => Some(Instruction::Ldrb { offset, rb, rd }),
    }
}

fn decode_add_pc(h: u16) -> Option<Instruction>
    ensures { result ≡ add_pc_of h }
{
    let rd = bits(h, 8, 3);
    let imm = bits(h, 0, 8);
    if bits(h, 11, 2) == 0 {
        Some(Instruction::AddPc { rd, imm })
    } else {
        None
    }
}

fn decode_branch(h: u16) -> Option<Instruction>
    ensures { result ≡ branch_of h }
{
    let cond = bits(h, 8, 4);
    let offset = bits(h, 0, 8);
    if bits(h, 12, 1) != 1 {
        return None;
    }
    if cond < 14 {
        Some(Instruction::Branch { cond, offset })
    } else {
        None
    }
}

// The instruction that a halfword says, for each of the 65,536.
pub fn decode(h: u16) -> Option<Instruction>
    ensures { result ≡ decode_of h }
{
    match bits(h, 13, 3) {
        0 => decode_halt(h),
        1 => decode_imm(h),
        2 => decode_registers(h),
        3 => decode_memory(h),
        4 => None,
        5 => decode_add_pc(h),
        6 => decode_branch(h),
        _ => None,
    }
}
