// Words of instructions.
ghost use Rattle.std.specs.Prelude.{◌≡◌};
ghost use Rattle.words.specs.Words.{word, word_of, decoded_word};

use isa::Instruction;

fn pack(kind: u8, a: u8, b: u8, c: u8) -> u32
    ensures { result ≡ word kind a b c }
{
    u32::from_be_bytes([kind, a, b, c])
}

// An instruction's word.
fn word_of(i: Instruction) -> u32
    ensures { result ≡ word_of i }
{
    match i {
        Instruction::MovImm { rd, imm } => pack(1, rd, imm, 0),
        Instruction::CmpImm { rd, imm } => pack(2, rd, imm, 0),
        Instruction::And { rs, rd } => pack(3, rs, rd, 0),
        Instruction::Eor { rs, rd } => pack(4, rs, rd, 0),
        Instruction::Asr { rs, rd } => pack(5, rs, rd, 0),
        Instruction::Tst { rs, rd } => pack(6, rs, rd, 0),
        Instruction::Neg { rs, rd } => pack(7, rs, rd, 0),
        Instruction::Cmp { rs, rd } => pack(8, rs, rd, 0),
        Instruction::AddHigh { rs, rd } => pack(9, rs, rd, 0),
        Instruction::CmpHigh { rs, rd } => pack(10, rs, rd, 0),
        Instruction::MovHigh { rs, rd } => pack(11, rs, rd, 0),
        Instruction::Str { offset, rb, rd } => pack(12, offset, rb, rd),
        Instruction::Ldr { offset, rb, rd } => pack(13, offset, rb, rd),
        Instruction::Strb { offset, rb, rd } => pack(14, offset, rb, rd),
        Instruction::Ldrb { offset, rb, rd } => pack(15, offset, rb, rd),
        Instruction::AddPc { rd, imm } => pack(16, rd, imm, 0),
        Instruction::Branch { cond, offset } => pack(17, cond, offset, 0),
        Instruction::Halt { note } => pack(18, note, 0, 0),
    }
}

// What a halfword says, as a word; 0 where it is undefined.
pub fn decoded_word(d: Option<Instruction>) -> u32
    ensures { result ≡ decoded_word d }
{
    match d {
        Some(i) => word_of(i),
        None => 0,
    }
}
