// The C faces of the cpu: one step and a run of the caller's machine. Each
// hands the machine by value to its core and writes back what comes of it.
ghost use Rattle.std.specs.Prelude.{◌≡◌};
ghost use Rattle.cpu.specs.Step.{step_of};
ghost use Rattle.cpu.specs.Traffic.{step_traffic};
ghost use Rattle.runner.specs.Run.{run_of};
ghost use Rattle.runner.specs.Traffic.{run_traffic};
ghost use Rattle.endings.specs.Endings.{numbered, numbered_step, numbered_run};

use cpu::Machine;

// One step of the caller's machine, which is written back whole. The low 8 bits
// answer 0 for a completed step, 255 at HALT, whose note the machine then has, 18
// to 20 for a stop, 1 where memory has not 65,536 bytes. Bits 8 to 15 tell whether
// a completed step read or wrote data, a byte or a halfword, and bits 16 to 31
// where; all are 0 if it touched none.
#[unsafe(no_mangle)]
pub extern "C" fn paw_step(m: &mut Machine, memory: &mut [u8]) -> u32
    ensures { numbered m.new memory.new result
        ≡ numbered_step (step_of m.old memory.old)
        (step_traffic m.old memory.old) }
{
    let stepped = endings::step_numbered(*m, memory);
    *m = stepped.machine;
    stepped.number
}

// Steps until `budget` of them are completed or one doesn't complete. The low 32
// bits answer as a step does, 0 for a spent budget, and tell what the last
// completed step touched; the upper 32 are the steps completed.
#[unsafe(no_mangle)]
pub extern "C" fn paw_run(m: &mut Machine, memory: &mut [u8], budget: u32) -> u64
    ensures { numbered m.new memory.new result
        ≡ numbered_run (run_of budget m.old memory.old)
        (run_traffic budget m.old memory.old) }
{
    let ran = endings::run_numbered(*m, memory, budget);
    *m = ran.machine;
    ran.number
}
