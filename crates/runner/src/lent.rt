// A run of a machine whose registers are lent and whose flags come by value. A
// run of a machine by value is made of it: that copies the registers in and out
// as a whole, which is quicker than to hand a machine on. The note stays with it:
// what HALT sets it to stands where the PC then is.
ghost use Rattle.std.specs.Prelude.{◌≡◌};
ghost use Rattle.cpu.specs.Held.{held};
ghost use Rattle.runner.specs.Run.{run_result, run_of};
ghost use Rattle.traffic.specs.Log.{empty_log, last_logged};
ghost use Rattle.runner.specs.Traffic.{run_traffic};
ghost use Rattle.runner.specs.Ends.{Ended};
ghost use Rattle.runner.specs.Lent.{lent, unnoted_run};

use super::runs::RunOutcome;
use alu::{Control, Status};
use cpu::{Outcome, fetch_and_execute};
use refusals::{Check, Refusal};
use traffic::Log;
use units::Memory;

// The flags after a run, how it ended, and the steps completed.
#[derive(Clone, Copy)]
pub struct RanLent {
    pub status: Status,
    pub outcome: RunOutcome,
    pub count: u32,
}

// The PC goes back into R15.
fn ended(regs: &mut [u16; 16], k: Control, outcome: Outcome, count: u32) -> RanLent
    ensures { Ended (lent regs.new result.status) result.outcome result.count
        (held regs.old k) outcome count }
{
    regs[15] = k.pc;
    RanLent {
        status: Status::from(k),
        outcome: RunOutcome::from(outcome),
        count,
    }
}

// A run with a memory of the right size.
fn run_within(
    s: Status,
    regs: &mut [u16; 16],
    memory: &mut Memory,
    budget: u32,
    log: &mut Log,
) -> RanLent
    requires { log.old ≡ empty_log }
    ensures count_after { run_result (lent regs.new result.status) memory.new result.outcome result.count
        ≡ unnoted_run (run_of budget (lent regs.old s) memory.old) }
    ensures log_after { last_logged result.count log.new
        ≡ run_traffic budget (lent regs.old s) memory.old }
{
    let mut k = Control::new(regs[15], s);
    for count in 0..budget {
        let e = fetch_and_execute(regs, k, memory, log, count);
        k = e.control;
        let outcome = e.outcome;
        match outcome {
            Outcome::Completed => {}
            _ => return ended(regs, k, outcome, count),
        }
    }
    ended(regs, k, Outcome::Completed, budget)
}

// Steps until `budget` of them are completed or one doesn't complete. What the
// last of them touched is left in the log, which is empty before. The log comes
// last, for the compiler to keep it on the stack, where only loads and stores
// look for it.
pub fn run_lent(
    s: Status,
    regs: &mut [u16; 16],
    memory: &mut [u8],
    budget: u32,
    log: &mut Log,
) -> RanLent
    requires { log.old ≡ empty_log }
    ensures count_after { run_result (lent regs.new result.status) memory.new result.outcome result.count
        ≡ unnoted_run (run_of budget (lent regs.old s) memory.old) }
    ensures log_after { last_logged result.count log.new
        ≡ run_traffic budget (lent regs.old s) memory.old }
{
    let Some(memory) = memory.as_mut_array() else {
        return RanLent {
            status: s,
            outcome: RunOutcome::Refused(Refusal::new(Check::MemorySize)),
            count: 0,
        };
    };
    run_within(s, regs, memory, budget, log)
}
