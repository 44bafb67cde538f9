// A run, its ending, what it touched and its count as one number.
ghost use Rattle.std.specs.Prelude.{◌≡◌};
ghost use Rattle.runner.specs.Run.{run_of};
ghost use Rattle.runner.specs.Traffic.{run_traffic};
ghost use Rattle.endings.specs.Endings.{numbered, numbered_run};

use super::number::{After, ending_number};
use cpu::{Machine, Outcome};

// A run: its ending and what its last completed step touched in the low 32 bits
// as a step's, with 0 where the budget is spent, and its count in the upper 32.
pub fn run_numbered(m: Machine, memory: &mut [u8], budget: u32) -> After<u64>
    ensures { numbered result.machine memory.new result.number
        ≡ numbered_run (run_of budget m memory.old) (run_traffic budget m memory.old) }
{
    let ran = runner::run(m, memory, budget);
    let ending = ending_number(Outcome::from(ran.outcome), ran.traffic);
    After {
        machine: ran.machine,
        number: ending as u64 + (ran.count as u64) * 0x100000000,
    }
}
