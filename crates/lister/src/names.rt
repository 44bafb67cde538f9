// The four characters that an instruction's line begins with; none for a halfword
// that is no instruction. Like `isa::decode` they go by the top three bits, then by
// the operation of the format: to decode first, and then to ask which instruction
// it is, takes half as long again. They are compiled into what writes the line.
ghost use Rattle.std.specs.Prelude.{◌≡◌, slice_get};
ghost use Rattle.isa.specs.Decode.{decode_of, halt_of, imm_of, registers_of, alu_of, high_of, memory_of, add_pc_of};
ghost use Rattle.isa.specs.Decode.{branch_of};
ghost use Rattle.lister.specs.Lines.{branch_names, name_in};

use units::bits;

const ADD: [u8; 4] = *b"ADD ";

const CMP: [u8; 4] = *b"CMP ";

const MOV: [u8; 4] = *b"MOV ";

// HALT.
#[inline(always)]
fn halt_name(h: u16) -> Option<[u8; 4]>
    ensures { result ≡ name_in (halt_of h) }
{
    if h < 256 { Some(*b"HALT") } else { None }
}

#[inline(always)]
fn imm_name(h: u16) -> Option<[u8; 4]>
    ensures { result ≡ name_in (imm_of h) }
{
    match bits(h, 11, 2) {
        0 => Some(MOV),
        1 => Some(CMP),
        _ => None,
    }
}

// AND, EOR, ASR, TST, NEG, CMP.
#[inline(always)]
fn alu_name(h: u16) -> Option<[u8; 4]>
    ensures { result ≡ name_in (alu_of h) }
{
    match bits(h, 6, 4) {
        0 => Some(*b"AND "),
        1 => Some(*b"EOR "),
        2 => Some(*b"ASR "),
        3 => Some(*b"TST "),
        4 => Some(*b"NEG "),
        5 => Some(CMP),
        _ => None,
    }
}

// A comparison of two low registers is none of this format.
#[inline(always)]
fn high_name(h: u16) -> Option<[u8; 4]>
    ensures { result ≡ name_in (high_of h) }
{
    match bits(h, 8, 2) {
        0 => Some(ADD),
        1 => { if bits(h, 6, 2) == 0 { None } else { Some(CMP) } }
        2 => Some(MOV),
        _ => None,
    }
}

#[inline(always)]
fn registers_name(h: u16) -> Option<[u8; 4]>
    ensures { result ≡ name_in (registers_of h) }
{
    match bits(h, 10, 3) {
        0 => alu_name(h),
        1 => high_name(h),
        _ => None,
    }
}

// STR, LDR, STRB, LDRB.
#[inline(always)]
fn memory_name(h: u16) -> Option<[u8; 4]>
    ensures { result ≡ name_in (memory_of h) }
{
    match bits(h, 11, 2) {
        0 => Some(*b"STR "),
        1 => Some(*b"LDR "),
        2 => Some(*b"STRB"),
        _ => Some(*b"LDRB"),
    }
}

#[inline(always)]
fn add_pc_name(h: u16) -> Option<[u8; 4]>
    ensures { result ≡ name_in (add_pc_of h) }
{
    if bits(h, 11, 2) == 0 { Some(ADD) } else { None }
}

// A branch by its condition: BEQ, BNE, BCS, BCC, BMI, BPL, BVS, BVC, BHI, BLS, BGE,
// BLT, BGT, BLE.
#[inline(always)]
fn condition_name(v: u8) -> Option<[u8; 4]>
    ensures { result ≡ slice_get branch_names v }
{
    match v {
        0 => Some(*b"BEQ "),
        1 => Some(*b"BNE "),
        2 => Some(*b"BCS "),
        3 => Some(*b"BCC "),
        4 => Some(*b"BMI "),
        5 => Some(*b"BPL "),
        6 => Some(*b"BVS "),
        7 => Some(*b"BVC "),
        8 => Some(*b"BHI "),
        9 => Some(*b"BLS "),
        10 => Some(*b"BGE "),
        11 => Some(*b"BLT "),
        12 => Some(*b"BGT "),
        13 => Some(*b"BLE "),
        _ => None,
    }
}

// 1101, then a condition.
#[inline(always)]
fn branch_name(h: u16) -> Option<[u8; 4]>
    ensures { result ≡ name_in (branch_of h) }
{
    if bits(h, 12, 1) != 1 {
        return None;
    }
    condition_name(bits(h, 8, 4))
}

// That of a halfword.
#[inline(always)]
pub(crate) fn name_of(h: u16) -> Option<[u8; 4]>
    ensures { result ≡ name_in (decode_of h) }
{
    match bits(h, 13, 3) {
        0 => halt_name(h),
        1 => imm_name(h),
        2 => registers_name(h),
        3 => memory_name(h),
        4 => None,
        5 => add_pc_name(h),
        6 => branch_name(h),
        _ => None,
    }
}
