// Results and flags. Sums, and differences as sums with the negated operand,
// are the standard library's wrapping addition.
ghost use Rattle.std.specs.Prelude.{◌≡◌, ◌%◌, ◌<◌, nat_le};
ghost use Rattle.alu.specs.Alu.{result_flags, sum_of, sum_flags, difference_of, difference_flags, shifted_of, shift_of};
ghost use Rattle.alu.specs.Alu.{shift_carry, shift_flags};
ghost use Rattle.alu.specs.Control.{flags_in};

use super::control::Control;

pub fn sum(a: u16, b: u16) -> u16
    ensures { result ≡ sum_of a b }
{
    a.wrapping_add(b)
}

pub fn difference(a: u16, b: u16) -> u16
    ensures { result ≡ difference_of a b }
{
    let negated = (65535 - b).wrapping_add(1);
    a.wrapping_add(negated)
}

// a shifted right by k bits with its sign coming in.
fn shifted(a: u16, k: u16) -> u16
    requires { k < 16 }
    ensures { result ≡ shifted_of a k }
{
    if a >= 0x8000 {
        65535 - ((65535 - a) >> k)
    } else {
        a >> k
    }
}

// ASR's result. A shift by 15 leaves only the sign already.
pub fn shift(a: u16, k: u16) -> u16
    ensures { result ≡ shift_of a k }
{
    if k < 16 {
        shifted(a, k)
    } else {
        shifted(a, 15)
    }
}

// ASR's carry: the last bit that went out, or c where none did.
fn shift_carry(a: u16, k: u16, c: bool) -> bool
    ensures { result ≡ shift_carry a k c }
{
    if k == 0 {
        return c;
    }
    if k < 16 {
        (a >> (k - 1)) % 2 == 1
    } else {
        a >= 0x8000
    }
}

// A sum that says C, with the low 16 bits of another, of which V speaks.
pub(crate) fn with_carry(sum: u32, c: bool) -> u32
    ensures { (nat_le 65536 result ≡ c) × (result % 65536 ≡ sum % 65536) }
{
    if c { sum % 65536 + 65536 } else { sum % 65536 }
}

impl Control {
    // N and Z of a result.
    pub fn result_flags(self, r: u16) -> Control
        ensures { (result.pc ≡ self.pc) × (flags_in result ≡ result_flags r (flags_in self)) }
    {
        let result = r as u32;
        Control { result, ..self }
    }

    // The flags of a sum r of a and b.
    pub fn sum_flags(self, a: u16, b: u16, r: u16) -> Control
        requires { r ≡ sum_of a b }
        ensures { (result.pc ≡ self.pc) × (flags_in result ≡ sum_flags a b) }
    {
        Control {
            result: r as u32,
            a,
            b,
            sum: (a as u32) + (b as u32),
            ..self
        }
    }

    // The flags of a difference r of a and b: those of the sum of a, b with every
    // bit the other way round, and 1.
    pub fn difference_flags(self, a: u16, b: u16, r: u16) -> Control
        requires { r ≡ difference_of a b }
        ensures { (result.pc ≡ self.pc) × (flags_in result ≡ difference_flags a b) }
    {
        Control {
            result: r as u32,
            a,
            b: 65535 - b,
            sum: (a as u32) + 65536 - (b as u32),
            ..self
        }
    }

    // The flags of a - b, of which a comparison keeps nothing else.
    pub fn compare(self, a: u16, b: u16) -> Control
        ensures { (result.pc ≡ self.pc) × (flags_in result ≡ difference_flags a b) }
    {
        let r = difference(a, b);
        self.difference_flags(a, b, r)
    }

    // The flags of ASR's result r of a and n.
    pub fn shift_flags(self, a: u16, n: u16, r: u16) -> Control
        requires { r ≡ shift_of a n }
        ensures { (result.pc ≡ self.pc) × (flags_in result ≡ shift_flags a n (flags_in self)) }
    {
        let c = shift_carry(a, n, self.is_carry());
        Control {
            result: r as u32,
            sum: with_carry(self.sum, c),
            ..self
        }
    }
}
