// One variant for each instruction of the manual, with its fields as the
// halfword holds them. `rd` and `rs` are registers, `rb` a base register.
// `MovImm` is the manual's MOV(1), `MovHigh` its MOV(2); `AddHigh` its ADD(1),
// `AddPc` its ADD(2); `CmpImm`, `Cmp` and `CmpHigh` its CMP(1), (2) and (3).
// A field is a byte of any value, and no type with fewer: which values form an
// instruction is what the encoder is asked (check 17).
#[derive(Clone, Copy, PartialEq, Eq, Debug)]
pub enum Instruction {
    MovImm { rd: u8, imm: u8 },
    CmpImm { rd: u8, imm: u8 },
    And { rs: u8, rd: u8 },
    Eor { rs: u8, rd: u8 },
    Asr { rs: u8, rd: u8 },
    Tst { rs: u8, rd: u8 },
    Neg { rs: u8, rd: u8 },
    Cmp { rs: u8, rd: u8 },
    AddHigh { rs: u8, rd: u8 },
    CmpHigh { rs: u8, rd: u8 },
    MovHigh { rs: u8, rd: u8 },
    Str { offset: u8, rb: u8, rd: u8 },
    Ldr { offset: u8, rb: u8, rd: u8 },
    Strb { offset: u8, rb: u8, rd: u8 },
    Ldrb { offset: u8, rb: u8, rd: u8 },
    AddPc { rd: u8, imm: u8 },
    Branch { cond: u8, offset: u8 },
    Halt { note: u8 },
}
