// A step by value.
ghost use Rattle.std.specs.Prelude.{◌≡◌};
ghost use Rattle.cpu.specs.Step.{step_result, step_of};
ghost use Rattle.cpu.specs.Traffic.{step_traffic};

use cpu::{Machine, Outcome};
use traffic::Traffic;

// The machine after a step, how the step ended, and what it touched.
#[derive(Clone, Copy)]
pub struct Stepped {
    pub machine: Machine,
    pub outcome: Outcome,
    pub traffic: Traffic,
}

// One step of a machine by value: a run with a budget of 1.
pub fn step_value(m: Machine, memory: &mut [u8]) -> Stepped
    ensures outcome_after { step_result result.machine memory.new result.outcome ≡ step_of m memory.old }
    ensures traffic_value { result.traffic ≡ step_traffic m memory.old }
{
    let ran = runner::run(m, memory, 1);
    Stepped {
        machine: ran.machine,
        outcome: Outcome::from(ran.outcome),
        traffic: ran.traffic,
    }
}
