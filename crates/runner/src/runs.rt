// A run of a machine by value.
ghost use Rattle.std.specs.Prelude.{◌≡◌};
ghost use Rattle.runner.specs.Run.{run_result, run_of};
ghost use Rattle.runner.specs.Traffic.{run_traffic};
ghost use Rattle.runner.specs.Ends.{as_run, as_step};

use super::lent::run_lent;
use super::notes::note_left;
use alu::Status;
use cpu::{Machine, Outcome, Stop};
use refusals::Refusal;
use traffic::{Log, Traffic};

// How a run ended: its budget was spent, or as its last step did.
#[derive(Clone, Copy, PartialEq, Eq, Debug)]
pub enum RunOutcome {
    Spent,
    Halted,
    Stopped(Stop),
    Refused(Refusal),
}

// A run by its last step: one that completed spent the budget.
impl From<Outcome> for RunOutcome {
    ghost from_gives = { λ outcome r. r ≡ as_run outcome };

    fn from(outcome: Outcome) -> RunOutcome {
        match outcome {
            Outcome::Completed => RunOutcome::Spent,
            Outcome::Halted => RunOutcome::Halted,
            Outcome::Stopped(stop) => RunOutcome::Stopped(stop),
            Outcome::Refused(refusal) => RunOutcome::Refused(refusal),
        }
    }
}

// A run of one step, as that step ended.
impl From<RunOutcome> for Outcome {
    ghost from_gives = { λ outcome r. r ≡ as_step outcome };

    fn from(outcome: RunOutcome) -> Outcome {
        match outcome {
            RunOutcome::Spent => Outcome::Completed,
            RunOutcome::Halted => Outcome::Halted,
            RunOutcome::Stopped(stop) => Outcome::Stopped(stop),
            RunOutcome::Refused(refusal) => Outcome::Refused(refusal),
        }
    }
}

// The machine after a run, how it ended, the steps completed, and what the last
// of them touched.
#[derive(Clone, Copy)]
pub struct Ran {
    pub machine: Machine,
    pub outcome: RunOutcome,
    pub count: u32,
    pub traffic: Traffic,
}

// Steps until `budget` of them are completed or one doesn't complete. The machine
// is flat, as C has it, so its flags are taken out here and put back. It is put
// into its callers: a machine that comes through one function more is copied once
// more, which takes a single step a fifth longer.
#[inline(always)]
pub fn run(m: Machine, memory: &mut [u8], budget: u32) -> Ran
    ensures count_after { run_result result.machine memory.new result.outcome result.count
        ≡ run_of budget m memory.old }
    ensures traffic_value { result.traffic ≡ run_traffic budget m memory.old }
{
    let mut regs = m.regs;
    let before = Status {
        n: m.n,
        z: m.z,
        c: m.c,
        v: m.v,
    };
    let mut log = Log::new();
    let e = run_lent(before, &mut regs, memory, budget, &mut log);
    let after = e.status;
    let outcome = e.outcome;
    let note = note_left(outcome, memory, regs[15], m.note);
    let machine = Machine {
        regs,
        n: after.n,
        z: after.z,
        c: after.c,
        v: after.v,
        note,
    };
    Ran {
        machine,
        outcome,
        count: e.count,
        traffic: log.last(e.count),
    }
}
