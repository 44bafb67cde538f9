// Check 23: the halfword of an instruction's line, if its values fit their
// fields.
ghost use Rattle.std.specs.Prelude.{◌≡◌, min, leb};
ghost use Rattle.std.proofs.Math.Option.{some};
ghost use Rattle.syntax.specs.Syntax.{given};
ghost use Rattle.assembler.specs.Assemble.{instruction_of, in_fours, in_reach, branch_byte};
ghost use Rattle.assembler.specs.Passes.{item_in, field_meaning};

use isa::{Instruction, encode};
use refusals::Check;
use syntax::{Item, Values};

// A register's number, or a field's value, as a byte. No line has a register
// above 15, and to the encoder 255 is none either; a field's value is tested
// beside.
pub(crate) fn narrow(v: u64) -> u8
    ensures { result ≡ min v 255 }
{
    v.min(255) as u8
}

// An instruction's halfword. No line says an instruction that the encoder refuses, and
// the definition gives such a one 0. So this is never an Err: it answers a Result since
// the functions below do, whose arms answer what it does.
fn encoded(i: Instruction) -> Result<u16, Check>
    ensures { result ≡ field_meaning (some i) }
{
    Ok(encode(i).unwrap_or(0))
}

// An instruction with a value of at most so much.
fn limited(v: u64, most: u64, i: Instruction) -> Result<u16, Check>
    ensures { result ≡ field_meaning (given (leb v most) i) }
{
    if v <= most {
        return encoded(i);
    }
    Err(Check::Value)
}

// An instruction with an offset that counts in fours.
fn in_fours(v: u64, most: u64, i: Instruction) -> Result<u16, Check>
    ensures { result ≡ field_meaning (given (in_fours most v) i) }
{
    if v % 4 == 0 {
        return limited(v, most, i);
    }
    Err(Check::Value)
}

// A branch of instruction `i` to instruction `j`.
pub(crate) fn branching(cond: u8, i: u64, j: u64) -> Result<u16, Check>
    ensures { result ≡ field_meaning (given (in_reach i j) (Instruction.Branch cond (branch_byte i j))) }
{
    if i <= j {
        let up = j - i;
        return limited(
            up,
            127,
            Instruction::Branch {
                cond,
                offset: narrow(up),
            },
        );
    }
    let down = i - j;
    if down <= 128 {
        return encoded(Instruction::Branch {
            cond,
            offset: (256 - down) as u8,
        });
    }
    Err(Check::Value)
}

// The halfword of instruction `i`, which branches to instruction `j` if it is a
// branch.
pub(crate) fn field_of(item: Item, i: u64, j: u64) -> Result<u16, Check>
    ensures { result ≡ field_meaning (instruction_of (item_in item) i j) }
{
    let Item {
        row,
        values: Values { a, b, c },
    } = item;
    let rd = narrow(a);
    let rs = narrow(b);
    let byte = narrow(c);
    let word = narrow(c / 4);
    let imm = narrow(b / 4);
    match row {
        0 => Err(Check::Value),
        1 => limited(b, 255, Instruction::MovImm { rd, imm: rs }),
        2 => limited(b, 255, Instruction::CmpImm { rd, imm: rs }),
        3 => encoded(Instruction::And { rs, rd }),
        4 => encoded(Instruction::Eor { rs, rd }),
        5 => encoded(Instruction::Asr { rs, rd }),
        6 => encoded(Instruction::Tst { rs, rd }),
        7 => encoded(Instruction::Neg { rs, rd }),
        8 => encoded(Instruction::Cmp { rs, rd }),
        9 => encoded(Instruction::AddHigh { rs, rd }),
        10 => encoded(Instruction::CmpHigh { rs, rd }),
        11 => encoded(Instruction::MovHigh { rs, rd }),
        12 => in_fours(
            c,
            124,
            Instruction::Str {
                offset: word,
                rb: rs,
                rd,
            },
        ),
        13 => in_fours(
            c,
            124,
            Instruction::Ldr {
                offset: word,
                rb: rs,
                rd,
            },
        ),
        14 => limited(
            c,
            31,
            Instruction::Strb {
                offset: byte,
                rb: rs,
                rd,
            },
        ),
        15 => limited(
            c,
            31,
            Instruction::Ldrb {
                offset: byte,
                rb: rs,
                rd,
            },
        ),
        16 => in_fours(b, 1020, Instruction::AddPc { rd, imm }),
        17 => branching(rd, i, j),
        18 => limited(a, 255, Instruction::Halt { note: rd }),
        _ => Err(Check::Value),
    }
}
