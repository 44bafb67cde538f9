// How a step ends.
ghost use Rattle.std.specs.Prelude.{◌≡◌};
ghost use Rattle.cpu.specs.Stop.{stop_number};

use refusals::Refusal;

// Why a step stopped: the PC is odd, its halfword is no instruction, or LDR or
// STR goes to an address that is no multiple of 4.
#[derive(Clone, Copy, PartialEq, Eq, Debug)]
pub enum Stop {
    OddPc,
    Undefined,
    Misaligned,
}

// Its number in the papers.
impl From<Stop> for u8 {
    ghost from_gives = { λ s number. number ≡ stop_number s };

    fn from(s: Stop) -> u8 {
        match s {
            Stop::OddPc => 18,
            Stop::Undefined => 19,
            Stop::Misaligned => 20,
        }
    }
}

// It completed, it met HALT, it stopped, or check 1 refused the memory.
#[derive(Clone, Copy, PartialEq, Eq, Debug)]
pub enum Outcome {
    Completed,
    Halted,
    Stopped(Stop),
    Refused(Refusal),
}
