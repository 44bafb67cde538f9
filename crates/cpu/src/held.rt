// How a machine is held while instructions run: the registers in an array, the
// PC and the flags by value beside it. What the array has at 15 doesn't count;
// an instruction that may name R15 first puts the PC there. No instruction looks
// at the note, so none is held.
ghost use Rattle.std.specs.Prelude.{◌≡◌, ◌<◌, slice_set};
ghost use Rattle.cpu.specs.Machine.{written};
ghost use Rattle.alu.specs.Control.{flags_in};
ghost use Rattle.cpu.specs.Held.{bare, held};

use super::outcome::{Outcome, Stop};
use alu::Control;

// What an instruction hands on, and how it ended.
#[derive(Clone, Copy)]
pub struct Executed {
    pub control: Control,
    pub outcome: Outcome,
}

impl Executed {
    pub(crate) fn completed(control: Control) -> Executed
        ensures { (result.control ≡ control) × (result.outcome ≡ Outcome.Completed) }
    {
        Executed {
            control,
            outcome: Outcome::Completed,
        }
    }

    // A stop: nothing has changed.
    pub(crate) fn stopped(control: Control, stop: Stop) -> Executed
        ensures { (result.control ≡ control) × (result.outcome ≡ Outcome.Stopped stop) }
    {
        Executed {
            control,
            outcome: Outcome::Stopped(stop),
        }
    }
}

// Ends an instruction that has a result for one of R0 to R7.
#[tactic(auto, using(crate::proofs::Ends::write_holds))]
pub(crate) fn write_low(regs: &mut [u16; 16], k: Control, rd: u8, x: u16) -> Control
    requires { rd < 8 }
    ensures { held regs.new result ≡ bare (written (slice_set regs.old 15 k.pc) rd x) (flags_in k) }
{
    regs[rd as usize] = x;
    k.advanced()
}

// Ends an instruction that has a result for any register; one for R15 is the
// next PC. The array is written in one arm only: else the compiler chooses
// between the two PCs with no jump, and each fetch waits for the result.
#[tactic(auto, using(crate::proofs::Ends::write_holds, crate::proofs::Ends::write_pc_holds))]
pub(crate) fn write(regs: &mut [u16; 16], k: Control, rd: u8, x: u16) -> Control
    requires { rd < 16 }
    ensures { held regs.new result ≡ bare (written (slice_set regs.old 15 k.pc) rd x) (flags_in k) }
{
    if rd == 15 {
        k.moved_to(x)
    } else {
        regs[rd as usize] = x;
        k.advanced()
    }
}
