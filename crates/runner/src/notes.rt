// The note that a run leaves. HALT keeps the PC on itself and memory as it is, so
// its low byte is still there when the run has ended: no step has to hand it on.
ghost use Rattle.std.specs.Prelude.{◌≡◌};
ghost use Rattle.units.specs.Bytes.{byte_at};
ghost use Rattle.runner.specs.Lent.{note_left};

use super::runs::RunOutcome;

// The byte at an address; 0 where memory has none.
fn byte_at(memory: &[u8], a: u16) -> u8
    ensures { result ≡ byte_at memory.now a }
{
    memory.get(a as usize).copied().unwrap_or(0)
}

// The note after a run that ended so with the PC there, where it was another
// before. HALT sets it to its low byte.
pub fn note_left(outcome: RunOutcome, memory: &[u8], pc: u16, before: u8) -> u8
    ensures { result ≡ note_left outcome (byte_at memory.now pc) before }
{
    match outcome {
        RunOutcome::Spent => before,
        RunOutcome::Halted => byte_at(memory, pc),
        RunOutcome::Stopped(_) => before,
        RunOutcome::Refused(_) => before,
    }
}
