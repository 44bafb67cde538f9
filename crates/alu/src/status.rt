// The flags by themselves, and as they are held.
ghost use Rattle.std.specs.Prelude.{◌≡◌, ◌%◌, ◌==◌};
ghost use Rattle.alu.specs.Alu.{negative};
ghost use Rattle.alu.specs.Control.{flags_in, flags_of};

use super::control::Control;
use super::results::with_carry;

// N, Z, C and V.
#[derive(Clone, Copy, PartialEq, Eq, Debug)]
pub struct Status {
    pub n: bool,
    pub z: bool,
    pub c: bool,
    pub v: bool,
}

// The flags that are held.
impl From<Control> for Status {
    ghost from_gives = { λ k s. flags_of s ≡ flags_in k };

    fn from(k: Control) -> Status {
        Status {
            n: k.is_negative(),
            z: k.is_zero(),
            c: k.is_carry(),
            v: k.is_overflow(),
        }
    }
}

// A result that N and Z, as they are, may speak of. 0x10000 stands for both
// set, which no instruction leaves but a start may have.
fn result_of(n: bool, z: bool) -> u32
    ensures { (negative result ≡ n) × ((result % 65536 == 0) ≡ z) }
{
    match (n, z) {
        (true, true) => 0x10000,
        (true, false) => 0x8000,
        (false, true) => 0,
        (false, false) => 1,
    }
}

// An operand whose sign is V: twice the same, and a sum with no sign, say so.
fn operand_of(v: bool) -> u16
    ensures { negative result ≡ v }
{
    if v { 0x8000 } else { 0 }
}

impl Control {
    // A PC and flags, held.
    pub fn new(pc: u16, s: Status) -> Control
        ensures { (result.pc ≡ pc) × (flags_in result ≡ flags_of s) }
    {
        let operand = operand_of(s.v);
        Control {
            pc,
            result: result_of(s.n, s.z),
            a: operand,
            b: operand,
            sum: with_carry(0, s.c),
        }
    }
}
