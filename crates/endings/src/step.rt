// A step, its ending and what it touched as a number.
ghost use Rattle.std.specs.Prelude.{◌≡◌};
ghost use Rattle.cpu.specs.Step.{step_of};
ghost use Rattle.cpu.specs.Traffic.{step_traffic};
ghost use Rattle.endings.specs.Endings.{numbered, numbered_step};

use super::number::{After, ending_number};
use cpu::Machine;

// One step. The low 8 bits are 0 where it completed, 255 at HALT, else the stop's
// or the refusal's own number; what it touched stands above them.
pub fn step_numbered(m: Machine, memory: &mut [u8]) -> After<u32>
    ensures { numbered result.machine memory.new result.number
        ≡ numbered_step (step_of m memory.old) (step_traffic m memory.old) }
{
    let stepped = stepper::step_value(m, memory);
    After {
        machine: stepped.machine,
        number: ending_number(stepped.outcome, stepped.traffic),
    }
}
