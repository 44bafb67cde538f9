// The flags that are held, and what branches ask of them.
ghost use Rattle.std.specs.Prelude.{◌≡◌};
ghost use Rattle.alu.specs.Alu.{signs_differ, condition_of};
ghost use Rattle.alu.specs.Control.{flags_in};

use super::control::Control;

// Whether two numbers have different signs.
fn signs_differ(a: u16, b: u16) -> bool
    ensures { result ≡ signs_differ a b }
{
    (a >= 0x8000) != (b >= 0x8000)
}

impl Control {
    pub fn is_negative(self) -> bool
        ensures { result ≡ (flags_in self).n }
    {
        self.result >= 0x8000
    }

    pub fn is_zero(self) -> bool
        ensures { result ≡ (flags_in self).z }
    {
        self.result % 65536 == 0
    }

    pub fn is_carry(self) -> bool
        ensures { result ≡ (flags_in self).c }
    {
        self.sum >= 65536
    }

    pub fn is_overflow(self) -> bool
        ensures { result ≡ (flags_in self).v }
    {
        let low = (self.sum % 65536) as u16;
        signs_differ(self.a, low) && signs_differ(self.b, low)
    }

    // Condition hi, unsigned: above.
    pub fn is_higher(self) -> bool
        ensures { result ≡ condition_of 8 (flags_in self) }
    {
        self.is_carry() && !self.is_zero()
    }

    // Condition lt, signed: below.
    pub fn is_less(self) -> bool
        ensures { result ≡ condition_of 11 (flags_in self) }
    {
        self.is_negative() != self.is_overflow()
    }

    // Condition gt, signed: above.
    pub fn is_greater(self) -> bool
        ensures { result ≡ condition_of 12 (flags_in self) }
    {
        !self.is_zero() && !self.is_less()
    }
}
