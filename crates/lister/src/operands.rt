// What follows the first four characters of an instruction's line, by the
// instruction's format. Every function that writes is compiled into its caller:
// so the writer's place stays in a register, where calls keep it in memory and
// take a fifth longer.
ghost use Rattle.text.specs.Writes.{Fits, Grew};
ghost use Rattle.syntax.specs.Syntax.{register_word};
ghost use Rattle.lister.specs.Lines.{last_number, note_text, immediate_text, pair_text, place_text, transfer_text};
ghost use Rattle.lister.specs.Lines.{add_pc_text, target_text, registers_text, memory_text, operands_of};

use text::Writer;
use units::{ByteAddress, bits};

// What stands between two operands.
const COMMA: &[u8; 2] = b", ";

#[inline(always)]
fn put_register(out: &mut Writer<'_>, r: u8)
    requires { Fits (register_word r) out.old }
    ensures { Grew (register_word r) out.old out.new }
{
    out.put(b'R');
    out.put_decimal(r as u16);
}

// A number and the line feed.
#[inline(always)]
fn put_last(out: &mut Writer<'_>, n: u16)
    requires { Fits (last_number n) out.old }
    ensures { Grew (last_number n) out.old out.new }
{
    out.put_decimal(n);
    out.put(b'\n');
}

// " #8", behind HALT.
#[inline(always)]
fn put_note(out: &mut Writer<'_>, note: u8)
    requires { Fits (note_text note) out.old }
    ensures { Grew (note_text note) out.old out.new }
{
    out.put_all(b" #");
    put_last(out, note as u16);
}

// "R1, #8".
#[inline(always)]
fn put_immediate(out: &mut Writer<'_>, r: u8, n: u8)
    requires { Fits (immediate_text r n) out.old }
    ensures { Grew (immediate_text r n) out.old out.new }
{
    put_register(out, r);
    out.put_all(COMMA);
    out.put(b'#');
    put_last(out, n as u16);
}

// "R1, R2".
#[inline(always)]
fn put_pair(out: &mut Writer<'_>, rd: u8, rs: u8)
    requires { Fits (pair_text rd rs) out.old }
    ensures { Grew (pair_text rd rs) out.old out.new }
{
    put_register(out, rd);
    out.put_all(COMMA);
    put_register(out, rs);
    out.put(b'\n');
}

// Two registers, each low or any, by the format.
#[inline(always)]
fn put_registers(out: &mut Writer<'_>, h: u16)
    requires { Fits (registers_text h) out.old }
    ensures { Grew (registers_text h) out.old out.new }
{
    if bits(h, 10, 3) == 0 {
        put_pair(out, bits(h, 0, 3), bits(h, 3, 3));
    } else {
        put_pair(out, units::high_rd(h), units::high_rs(h));
    }
}

// "[R2, #8]".
#[inline(always)]
fn put_place(out: &mut Writer<'_>, rb: u8, n: u16)
    requires { Fits (place_text rb n) out.old }
    ensures { Grew (place_text rb n) out.old out.new }
{
    out.put(b'[');
    put_register(out, rb);
    out.put_all(COMMA);
    out.put(b'#');
    out.put_decimal(n);
    out.put_all(b"]\n");
}

// "R1, [R2, #8]".
#[inline(always)]
fn put_transfer(out: &mut Writer<'_>, rd: u8, rb: u8, n: u16)
    requires { Fits (transfer_text rd rb n) out.old }
    ensures { Grew (transfer_text rd rb n) out.old out.new }
{
    put_register(out, rd);
    out.put_all(COMMA);
    put_place(out, rb, n);
}

// Those of a load or store. STRB and LDRB have no space among their first four
// characters. The offset of STR and LDR counts in fours.
#[inline(always)]
fn put_memory(out: &mut Writer<'_>, h: u16)
    requires { Fits (memory_text h) out.old }
    ensures { Grew (memory_text h) out.old out.new }
{
    let offset = bits(h, 6, 5) as u16;
    let rb = bits(h, 3, 3);
    let rd = bits(h, 0, 3);
    if bits(h, 12, 1) == 0 {
        put_transfer(out, rd, rb, 4 * offset);
    } else {
        out.put(b' ');
        put_transfer(out, rd, rb, offset);
    }
}

// "R1, PC, #8".
#[inline(always)]
fn put_add_pc(out: &mut Writer<'_>, r: u8, imm: u8)
    requires { Fits (add_pc_text r imm) out.old }
    ensures { Grew (add_pc_text r imm) out.old out.new }
{
    put_register(out, r);
    out.put_all(COMMA);
    out.put_all(b"PC, ");
    out.put(b'#');
    put_last(out, 4 * (imm as u16));
}

// The label of an address.
#[inline(always)]
fn put_target(out: &mut Writer<'_>, a: ByteAddress)
    requires { Fits (target_text a) out.old }
    ensures { Grew (target_text a) out.old out.new }
{
    out.put(b'a');
    put_last(out, a.0);
}

// The operands of the halfword at an address, and the line feed.
#[inline(always)]
pub(crate) fn put_operands(out: &mut Writer<'_>, a: ByteAddress, h: u16)
    requires { Fits (operands_of a h) out.old }
    ensures { Grew (operands_of a h) out.old out.new }
{
    match bits(h, 13, 3) {
        0 => put_note(out, bits(h, 0, 8)),
        1 => put_immediate(out, bits(h, 8, 3), bits(h, 0, 8)),
        2 => put_registers(out, h),
        3 => put_memory(out, h),
        5 => put_add_pc(out, bits(h, 8, 3), bits(h, 0, 8)),
        _ => put_target(out, a.branch_target(bits(h, 0, 8))),
    }
}
