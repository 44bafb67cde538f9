// The number of an ending, and what was touched beside it.
ghost use Rattle.std.specs.Prelude.{◌≡◌, ◌+◌};
ghost use Rattle.endings.specs.Endings.{outcome_number, traffic_number};

use cpu::{Machine, Outcome};
use traffic::Traffic;

// A machine after a step or a run, and in a number of its size how that ended and
// what it touched.
#[derive(Clone, Copy)]
pub struct After<N> {
    pub machine: Machine,
    pub number: N,
}

// It is no `From`, which would be for the crate of `Outcome` to write: the numbers
// are those of the C face, which are this crate's.
fn outcome_number(o: Outcome) -> u8
    ensures { result ≡ outcome_number o }
{
    match o {
        Outcome::Completed => 0,
        Outcome::Halted => 255,
        Outcome::Stopped(stop) => u8::from(stop),
        Outcome::Refused(r) => u8::from(r.check),
    }
}

// The ending in the low 8 bits, the kind of access from bit 8 on, and its address
// from bit 16 on.
pub(crate) fn ending_number(o: Outcome, t: Traffic) -> u32
    ensures { result ≡ outcome_number o + traffic_number t }
{
    let ending = outcome_number(o) as u32;
    let kind = t.kind() as u32;
    let address = t.address() as u32;
    ending + kind * 0x100 + address * 0x10000
}
