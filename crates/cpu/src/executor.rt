// A step on a machine that is held: the halfword at the PC is fetched and, by its
// fields, sent to the function of its instruction. To make an `Instruction` of
// it first, only to take that apart again, would cost a run more than the
// instructions themselves. For the same reason few tests are on the way: ten
// bits tell an operation on registers, five all else but a branch, and a
// branch's upper byte its condition.
//
// Registers, control, memory, log and step are parameters of their own: of a struct
// with the three `&mut` each contract would have to say that it still holds them.
ghost use Rattle.std.specs.Prelude.{◌≡◌};
ghost use Rattle.isa.specs.Decode.{halt_of, decode_of};
ghost use Rattle.cpu.specs.Step.{step_result, step_of};
ghost use Rattle.cpu.specs.Traffic.{step_traffic};
ghost use Rattle.traffic.specs.Log.{logged};
ghost use Rattle.cpu.specs.Held.{held, unnoted, told_decoded, Leads, Beside, branch_else, other_else};

use super::held::Executed;
use super::instructions;
use super::outcome::{Outcome, Stop};
use alu::Control;
use traffic::Log;
use units::{Memory, bits, halfword_at};

// HALT, or a halfword that only begins like it.
fn execute_halt(k: Control, h: u16) -> Executed
    ensures { Beside result k (halt_of h) }
{
    if h < 256 {
        Executed {
            control: k,
            outcome: Outcome::Halted,
        }
    } else {
        Executed::stopped(k, Stop::Undefined)
    }
}

// A branch by each of its conditions, or no instruction.
fn execute_branch(k: Control, h: u16) -> Executed
    ensures { Beside result k (branch_else h) }
{
    match bits(h, 8, 8) {
        0xD0 => Executed::completed(instructions::branch(k, k.is_zero(), h)),
        0xD1 => Executed::completed(instructions::branch(k, !k.is_zero(), h)),
        0xD2 => Executed::completed(instructions::branch(k, k.is_carry(), h)),
        0xD3 => Executed::completed(instructions::branch(k, !k.is_carry(), h)),
        0xD4 => Executed::completed(instructions::branch(k, k.is_negative(), h)),
        0xD5 => Executed::completed(instructions::branch(k, !k.is_negative(), h)),
        0xD6 => Executed::completed(instructions::branch(k, k.is_overflow(), h)),
        0xD7 => Executed::completed(instructions::branch(k, !k.is_overflow(), h)),
        0xD8 => Executed::completed(instructions::branch(k, k.is_higher(), h)),
        0xD9 => Executed::completed(instructions::branch(k, !k.is_higher(), h)),
        0xDA => Executed::completed(instructions::branch(k, !k.is_less(), h)),
        0xDB => Executed::completed(instructions::branch(k, k.is_less(), h)),
        0xDC => Executed::completed(instructions::branch(k, k.is_greater(), h)),
        0xDD => Executed::completed(instructions::branch(k, !k.is_greater(), h)),
        _ => Executed::stopped(k, Stop::Undefined),
    }
}

// Any instruction but the operations on registers, by its top five bits.
fn execute_other(
    regs: &mut [u16; 16],
    k: Control,
    memory: &mut Memory,
    log: &mut Log,
    step: u32,
    h: u16,
) -> Executed
    ensures { Leads regs.new result memory.new log.new
        (told_decoded (other_else h) (held regs.old k) memory.old step log.old) }
{
    match bits(h, 11, 5) {
        0 => execute_halt(k, h),
        4 => Executed::completed(instructions::mov_imm(regs, k, h)),
        5 => Executed::completed(instructions::cmp_imm(regs, k, h)),
        12 => instructions::str(regs, k, memory, log, step, h),
        13 => instructions::ldr(regs, k, memory, log, step, h),
        14 => instructions::strb(regs, k, memory, log, step, h),
        15 => instructions::ldrb(regs, k, memory, log, step, h),
        20 => Executed::completed(instructions::add_pc(regs, k, h)),
        _ => execute_branch(k, h),
    }
}

// Does what a halfword says on a machine that is held and its memory. Each value
// has an arm: of a range of them the compiler makes comparisons in front of its table.
fn execute(
    regs: &mut [u16; 16],
    k: Control,
    memory: &mut Memory,
    log: &mut Log,
    step: u32,
    h: u16,
) -> Executed
    ensures { Leads regs.new result memory.new log.new
        (told_decoded (decode_of h) (held regs.old k) memory.old step log.old) }
{
    match h >> 6 {
        0x100 => Executed::completed(instructions::and(regs, k, h)),
        0x101 => Executed::completed(instructions::eor(regs, k, h)),
        0x102 => Executed::completed(instructions::asr(regs, k, h)),
        0x103 => Executed::completed(instructions::tst(regs, k, h)),
        0x104 => Executed::completed(instructions::neg(regs, k, h)),
        0x105 => Executed::completed(instructions::cmp(regs, k, h)),
        0x110 => Executed::completed(instructions::add_low(regs, k, h)),
        0x111 => Executed::completed(instructions::add_high(regs, k, h)),
        0x112 => Executed::completed(instructions::add_high(regs, k, h)),
        0x113 => Executed::completed(instructions::add_high(regs, k, h)),
        0x115 => Executed::completed(instructions::cmp_high(regs, k, h)),
        0x116 => Executed::completed(instructions::cmp_high(regs, k, h)),
        0x117 => Executed::completed(instructions::cmp_high(regs, k, h)),
        0x118 => Executed::completed(instructions::mov_low(regs, k, h)),
        0x119 => Executed::completed(instructions::mov_high(regs, k, h)),
        0x11A => Executed::completed(instructions::mov_high(regs, k, h)),
        0x11B => Executed::completed(instructions::mov_high(regs, k, h)),
        _ => execute_other(regs, k, memory, log, step, h),
    }
}

// One step. HALT's note is left to whoever has the machine. A load or store that
// completes puts itself into the log, as the step with this number.
pub fn fetch_and_execute(
    regs: &mut [u16; 16],
    k: Control,
    memory: &mut Memory,
    log: &mut Log,
    step: u32,
) -> Executed
    ensures { (step_result (held regs.new result.control) memory.new result.outcome
        ≡ unnoted (step_of (held regs.old k) memory.old))
        × (log.new
        ≡ logged step (step_traffic (held regs.old k) memory.old) log.old) }
{
    if k.pc % 2 != 0 {
        return Executed::stopped(k, Stop::OddPc);
    }
    let h = halfword_at(memory, k.pc as usize);
    execute(regs, k, memory, log, step, h)
}
