// The table's rows.
use cpu::Machine;
use digits::Hex;
use streams::Ascii;

const WINDOW: u16 = 256;

// ASR of 0x4000 by 15, by a step at address 0.
pub(crate) fn print_shift(rt: &impl Print) {
    let mut memory = [0u8; 65536];
    memory[0] = 0x88;
    memory[1] = 0x40;
    let mut start = Machine::default();
    start.regs[0] = 0x4000;
    start.regs[1] = 15;
    let m = stepper::step_value(start, &mut memory).machine;
    let Machine { regs, z, c, .. } = m;
    let shifted = regs[0];
    let _ = println!(rt;
        "ASR of 0x4000 by 15: {shifted} Z{} C{}",
        u8::from(z),
        u8::from(c)
    );
}

// Packs a code into one block and says what the verifier makes of it.
fn print_code(rt: &impl Print, words: &str, code: &[u16], length: u16) {
    let mut block = [0u8; 512];
    let _ = packer::pack(code, WINDOW, length, &mut block);
    let line = lines::verdict_line(verifier::verify(&block));
    let _ = print!(rt; "verifying {words}: {}", Ascii(line.as_bytes()));
}

fn print_packed(rt: &impl Print, code: &[u16]) {
    let mut block = [0u8; 512];
    let _ = packer::pack(code, WINDOW, WINDOW, &mut block);
    let last = u16::from_le_bytes([block[510], block[511]]);
    let _ = println!(rt;
        "packing P with l 256: 1 block, last halfword {}",
        Hex(last)
    );
}

pub(crate) fn print_verdicts(rt: &impl Print) {
    let p = [0x21FCu16, 0x4008, 0x2280, 0x4412, 0x4410, 0x6001, 0x0000];
    let other_mask = [0x21FDu16, 0x4008, 0x2280, 0x4412, 0x4410, 0x6001, 0x0000];
    let with_branch = [
        0x21FCu16, 0x4008, 0x2280, 0x4412, 0x4410, 0x6001, 0xD0FF, 0x0000,
    ];
    let writes_pc = [
        0x4687u16, 0x21FC, 0x4008, 0x2280, 0x4412, 0x4410, 0x6001, 0x0000,
    ];
    let back = [0xD0FFu16, 0x0000];
    print_code(rt, "0xD0FF at address 0", &back, 256);
    print_code(
        rt,
        "P with first halfword 0x21FD and l 256",
        &other_mask,
        256,
    );
    print_code(rt, "P with 0xD0FF before its HALT", &with_branch, 256);
    print_code(rt, "P with 0x4687 in front", &writes_pc, 256);
    print_packed(rt, &p);
    print_code(rt, "P with l 256", &p, 256);
    print_code(rt, "P with l 252", &p, 252);
}
