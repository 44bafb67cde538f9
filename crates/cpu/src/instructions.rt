// One function an instruction, in the manual's order and named after its page. It
// takes its fields out of the halfword itself. ADD and MOV of two of R0 to R7
// have functions of their own: they have nothing to do with the PC. The control
// comes by value beside the lent registers: behind the same `&mut` it would be kept
// in memory, where each step waits for the one before.
ghost use Rattle.std.specs.Prelude.{◌≡◌, ◌+◌, ◌<◌, slice_index, slice_set};
ghost use Rattle.units.specs.Address.{wrap};
ghost use Rattle.units.specs.Field.{field, high_rs, high_rd};
ghost use Rattle.isa.specs.declared.instruction.Instruction.TheVariants.{Str, Ldr, Strb, Ldrb};
ghost use Rattle.cpu.specs.Step.{resulting, add_high_of, add_pc_of, and_of, asr_of, cmp_imm_of, cmp_of, cmp_high_of};
ghost use Rattle.cpu.specs.Step.{eor_of};
ghost use Rattle.cpu.specs.Step.{mov_imm_of, mov_high_of, neg_of, tst_of};
ghost use Rattle.cpu.specs.Held.{held, branched, told_of, Leads};

use super::held::{Executed, write, write_low};
use super::memory::{load_byte, store_byte};
use super::outcome::Stop;
use alu::{Control, difference, shift, sum};
use traffic::{Log, Traffic};
use units::{ByteAddress, Memory, bits, halfword_at, high_rd, high_rs, put_halfword};

// Puts the PC where ADD, CMP and MOV find it when they name R15: the address of
// the instruction itself.
fn show_pc(regs: &mut [u16; 16], k: Control)
    ensures { regs.new ≡ slice_set regs.old 15 k.pc }
{
    regs[15] = k.pc;
}

// Ends an instruction with a result for one of R0 to R7 of which N and Z speak.
#[tactic(auto, using(crate::proofs::Ends::same))]
fn leave(regs: &mut [u16; 16], k: Control, rd: u8, r: u16) -> Control
    requires { rd < 8 }
    ensures { held regs.new result ≡ resulting rd r (held regs.old k) }
{
    write_low(regs, k.result_flags(r), rd, r)
}

// ADD(1) of two of R0 to R7.
#[tactic(auto, using(crate::proofs::Ends::lows, crate::proofs::Ends::same), unfolding(crate::specs::Step::add_high_of))]
pub(crate) fn add_low(regs: &mut [u16; 16], k: Control, h: u16) -> Control
    ensures { held regs.new result ≡ add_high_of (field h 3 3) (field h 0 3) (held regs.old k) }
{
    let a = regs[bits(h, 0, 3) as usize];
    let b = regs[bits(h, 3, 3) as usize];
    let r = sum(a, b);
    write_low(regs, k.sum_flags(a, b, r), bits(h, 0, 3), r)
}

// ADD(1) of any two registers.
#[tactic(auto, using(crate::proofs::Ends::anew, crate::proofs::Ends::same), unfolding(crate::specs::Step::add_high_of))]
pub(crate) fn add_high(regs: &mut [u16; 16], k: Control, h: u16) -> Control
    ensures { held regs.new result ≡ add_high_of (high_rs h) (high_rd h) (held regs.old k) }
{
    show_pc(regs, k);
    let a = regs[high_rd(h) as usize];
    let b = regs[high_rs(h) as usize];
    let r = sum(a, b);
    write(regs, k.sum_flags(a, b, r), high_rd(h), r)
}

// ADD(2).
#[tactic(auto, using(crate::proofs::Ends::pc_is), unfolding(crate::specs::Step::add_pc_of))]
pub(crate) fn add_pc(regs: &mut [u16; 16], k: Control, h: u16) -> Control
    ensures { held regs.new result ≡ add_pc_of (field h 8 3) (field h 0 8) (held regs.old k) }
{
    let r = ByteAddress(k.pc).pc_sum(bits(h, 0, 8));
    write_low(regs, k, bits(h, 8, 3), r)
}

// AND.
#[tactic(auto, using(crate::proofs::Ends::lows), unfolding(crate::specs::Step::and_of))]
pub(crate) fn and(regs: &mut [u16; 16], k: Control, h: u16) -> Control
    ensures { held regs.new result ≡ and_of (field h 3 3) (field h 0 3) (held regs.old k) }
{
    let r = regs[bits(h, 0, 3) as usize] & regs[bits(h, 3, 3) as usize];
    leave(regs, k, bits(h, 0, 3), r)
}

// ASR: both operands are read before Rd is written.
#[tactic(auto, using(crate::proofs::Ends::lows, crate::proofs::Ends::same), unfolding(crate::specs::Step::asr_of))]
pub(crate) fn asr(regs: &mut [u16; 16], k: Control, h: u16) -> Control
    ensures { held regs.new result ≡ asr_of (field h 3 3) (field h 0 3) (held regs.old k) }
{
    let a = regs[bits(h, 0, 3) as usize];
    let n = regs[bits(h, 3, 3) as usize] % 256;
    let r = shift(a, n);
    write_low(regs, k.shift_flags(a, n, r), bits(h, 0, 3), r)
}

// B: what it leaves beside the registers.
pub(crate) fn branch(k: Control, holds: bool, h: u16) -> Control
    ensures { result ≡ branched holds (field h 0 8) k }
{
    if holds {
        let target = ByteAddress(k.pc).branch_target(bits(h, 0, 8));
        k.moved_to(target.0)
    } else {
        k.advanced()
    }
}

// CMP(1).
#[tactic(auto, using(crate::proofs::Ends::as_is, crate::proofs::Ends::goes), unfolding(crate::specs::Step::cmp_imm_of))]
pub(crate) fn cmp_imm(regs: &[u16; 16], k: Control, h: u16) -> Control
    ensures { held regs.now result ≡ cmp_imm_of (field h 8 3) (field h 0 8) (held regs.now k) }
{
    let a = regs[bits(h, 8, 3) as usize];
    k.compare(a, bits(h, 0, 8) as u16).advanced()
}

// CMP(2).
#[tactic(auto, using(crate::proofs::Ends::lows, crate::proofs::Ends::goes), unfolding(crate::specs::Step::cmp_of))]
pub(crate) fn cmp(regs: &[u16; 16], k: Control, h: u16) -> Control
    ensures { held regs.now result ≡ cmp_of (field h 3 3) (field h 0 3) (held regs.now k) }
{
    let a = regs[bits(h, 0, 3) as usize];
    let b = regs[bits(h, 3, 3) as usize];
    k.compare(a, b).advanced()
}

// CMP(3).
#[tactic(auto, using(crate::proofs::Ends::anew, crate::proofs::Ends::goes), unfolding(crate::specs::Step::cmp_high_of))]
pub(crate) fn cmp_high(regs: &mut [u16; 16], k: Control, h: u16) -> Control
    ensures { held regs.new result ≡ cmp_high_of (high_rs h) (high_rd h) (held regs.old k) }
{
    show_pc(regs, k);
    let a = regs[high_rd(h) as usize];
    let b = regs[high_rs(h) as usize];
    k.compare(a, b).advanced()
}

// EOR.
#[tactic(auto, using(crate::proofs::Ends::lows), unfolding(crate::specs::Step::eor_of))]
pub(crate) fn eor(regs: &mut [u16; 16], k: Control, h: u16) -> Control
    ensures { held regs.new result ≡ eor_of (field h 3 3) (field h 0 3) (held regs.old k) }
{
    let r = regs[bits(h, 0, 3) as usize] ^ regs[bits(h, 3, 3) as usize];
    leave(regs, k, bits(h, 0, 3), r)
}

// Where a load or a store goes: a distance past its base register.
fn effective_address(regs: &[u16; 16], h: u16, distance: u16) -> u16
    ensures { result ≡ wrap (slice_index regs.now (field h 3 3) + distance) }
{
    let base = regs[bits(h, 3, 3) as usize];
    base.wrapping_add(distance)
}

// LDR, or stop 20.
pub(crate) fn ldr(
    regs: &mut [u16; 16],
    k: Control,
    memory: &Memory,
    log: &mut Log,
    step: u32,
    h: u16,
) -> Executed
    ensures { Leads regs.new result memory.now log.new
        (told_of (Ldr (field h 6 5) (field h 3 3) (field h 0 3)) (held regs.old k)
        memory.now step log.old) }
{
    let a = effective_address(regs, h, 4 * (bits(h, 6, 5) as u16));
    if a % 4 != 0 {
        return Executed::stopped(k, Stop::Misaligned);
    }
    let x = halfword_at(memory, a as usize);
    log.put(step, Traffic::ReadHalfword(ByteAddress(a)));
    Executed::completed(write_low(regs, k, bits(h, 0, 3), x))
}

// LDRB.
pub(crate) fn ldrb(
    regs: &mut [u16; 16],
    k: Control,
    memory: &Memory,
    log: &mut Log,
    step: u32,
    h: u16,
) -> Executed
    ensures { Leads regs.new result memory.now log.new
        (told_of (Ldrb (field h 6 5) (field h 3 3) (field h 0 3)) (held regs.old k)
        memory.now step log.old) }
{
    let a = effective_address(regs, h, bits(h, 6, 5) as u16);
    let x = load_byte(memory, a);
    log.put(step, Traffic::ReadByte(ByteAddress(a)));
    Executed::completed(write_low(regs, k, bits(h, 0, 3), x))
}

// MOV(1).
#[tactic(auto, unfolding(crate::specs::Step::mov_imm_of))]
pub(crate) fn mov_imm(regs: &mut [u16; 16], k: Control, h: u16) -> Control
    ensures { held regs.new result ≡ mov_imm_of (field h 8 3) (field h 0 8) (held regs.old k) }
{
    leave(regs, k, bits(h, 8, 3), bits(h, 0, 8) as u16)
}

// MOV(2) of two of R0 to R7.
#[tactic(auto, using(crate::proofs::Ends::lows), unfolding(crate::specs::Step::mov_high_of))]
pub(crate) fn mov_low(regs: &mut [u16; 16], k: Control, h: u16) -> Control
    ensures { held regs.new result ≡ mov_high_of (field h 3 3) (field h 0 3) (held regs.old k) }
{
    let r = regs[bits(h, 3, 3) as usize];
    leave(regs, k, bits(h, 0, 3), r)
}

// MOV(2) of any two registers.
#[tactic(auto, using(crate::proofs::Ends::anew, crate::proofs::Ends::same), unfolding(crate::specs::Step::mov_high_of))]
pub(crate) fn mov_high(regs: &mut [u16; 16], k: Control, h: u16) -> Control
    ensures { held regs.new result ≡ mov_high_of (high_rs h) (high_rd h) (held regs.old k) }
{
    show_pc(regs, k);
    let r = regs[high_rs(h) as usize];
    write(regs, k.result_flags(r), high_rd(h), r)
}

// NEG.
#[tactic(auto, using(crate::proofs::Ends::lows, crate::proofs::Ends::same), unfolding(crate::specs::Step::neg_of))]
pub(crate) fn neg(regs: &mut [u16; 16], k: Control, h: u16) -> Control
    ensures { held regs.new result ≡ neg_of (field h 3 3) (field h 0 3) (held regs.old k) }
{
    let b = regs[bits(h, 3, 3) as usize];
    let r = difference(0, b);
    write_low(regs, k.difference_flags(0, b, r), bits(h, 0, 3), r)
}

// STR, or stop 20.
pub(crate) fn str(
    regs: &[u16; 16],
    k: Control,
    memory: &mut Memory,
    log: &mut Log,
    step: u32,
    h: u16,
) -> Executed
    ensures { Leads regs.now result memory.new log.new
        (told_of (Str (field h 6 5) (field h 3 3) (field h 0 3)) (held regs.now k)
        memory.old step log.old) }
{
    let a = effective_address(regs, h, 4 * (bits(h, 6, 5) as u16));
    if a % 4 != 0 {
        return Executed::stopped(k, Stop::Misaligned);
    }
    let x = regs[bits(h, 0, 3) as usize];
    put_halfword(memory, a as usize, x);
    log.put(step, Traffic::WroteHalfword(ByteAddress(a)));
    Executed::completed(k.advanced())
}

// STRB.
pub(crate) fn strb(
    regs: &[u16; 16],
    k: Control,
    memory: &mut Memory,
    log: &mut Log,
    step: u32,
    h: u16,
) -> Executed
    ensures { Leads regs.now result memory.new log.new
        (told_of (Strb (field h 6 5) (field h 3 3) (field h 0 3)) (held regs.now k)
        memory.old step log.old) }
{
    let a = effective_address(regs, h, bits(h, 6, 5) as u16);
    let x = regs[bits(h, 0, 3) as usize];
    store_byte(memory, a, x);
    log.put(step, Traffic::WroteByte(ByteAddress(a)));
    Executed::completed(k.advanced())
}

// TST.
#[tactic(auto, using(crate::proofs::Ends::lows, crate::proofs::Ends::goes), unfolding(crate::specs::Step::tst_of))]
pub(crate) fn tst(regs: &[u16; 16], k: Control, h: u16) -> Control
    ensures { held regs.now result ≡ tst_of (field h 3 3) (field h 0 3) (held regs.now k) }
{
    let r = regs[bits(h, 0, 3) as usize] & regs[bits(h, 3, 3) as usize];
    k.result_flags(r).advanced()
}
