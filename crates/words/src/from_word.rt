// Instructions of words.
ghost use Rattle.std.specs.Prelude.{◌≡◌};
ghost use Rattle.words.specs.Words.{instruction_of};

use isa::Instruction;

// The instruction that a word stands for. A byte that its kind has no field
// for is not looked at.
pub fn instruction_of(w: u32) -> Option<Instruction>
    ensures { result ≡ instruction_of w }
{
    let [kind, a, b, c] = w.to_be_bytes();
    match kind {
        0 => None,
        1 => Some(Instruction::MovImm { rd: a, imm: b }),
        2 => Some(Instruction::CmpImm { rd: a, imm: b }),
        3 => Some(Instruction::And { rs: a, rd: b }),
        4 => Some(Instruction::Eor { rs: a, rd: b }),
        5 => Some(Instruction::Asr { rs: a, rd: b }),
        6 => Some(Instruction::Tst { rs: a, rd: b }),
        7 => Some(Instruction::Neg { rs: a, rd: b }),
        8 => Some(Instruction::Cmp { rs: a, rd: b }),
        9 => Some(Instruction::AddHigh { rs: a, rd: b }),
        10 => Some(Instruction::CmpHigh { rs: a, rd: b }),
        11 => Some(Instruction::MovHigh { rs: a, rd: b }),
        12 => Some(Instruction::Str {
            offset: a,
            rb: b,
            rd: c,
        }),
        13 => Some(Instruction::Ldr {
            offset: a,
            rb: b,
            rd: c,
        }),
        14 => Some(Instruction::Strb {
            offset: a,
            rb: b,
            rd: c,
        }),
        15 => Some(Instruction::Ldrb {
            offset: a,
            rb: b,
            rd: c,
        }),
        16 => Some(Instruction::AddPc { rd: a, imm: b }),
        17 => Some(Instruction::Branch { cond: a, offset: b }),
        18 => Some(Instruction::Halt { note: a }),
        _ => None,
    }
}
