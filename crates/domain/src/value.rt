// The abstract value of a register, the values that need no other, and what each
// instruction makes of its operands'. The rules are total: they answer for
// operands that no walk meets, too.
ghost use Rattle.std.specs.Prelude.{◌≡◌};
ghost use Rattle.domain.specs.Value.{bit_length_of, ones_of};

use std::ops::{Add, BitAnd, BitXor, Neg};

// The largest number of 16 bits.
const MAX: u16 = u16::MAX;

// The largest number that ASR takes for positive.
const MAX_POSITIVE: u16 = 32767;

// What is known of a register: it is at least `low`, at most `high`, and its
// lowest `zeros` bits are 0.
#[derive(Clone, Copy, PartialEq, Eq, Debug)]
pub struct Value {
    pub low: u16,
    pub high: u16,
    pub zeros: u8,
}

impl Value {
    ghost use Rattle.domain.specs.Value.{interval_of, unknown_of, exactly_of, byte_of, asr_of};

    // The value of the three numbers that a rule gives. Every rule goes through
    // here, because a register that can only be one number has that number's
    // trailing zeros, whatever the rule's own count is.
    #[tactic(auto, unfolding(crate::specs::Value::interval_of))]
    fn interval(low: u16, high: u16, zeros: u8) -> Value
        ensures { result ≡ interval_of low high zeros }
    {
        if low == high {
            Value {
                low,
                high,
                zeros: u16::trailing_zeros(low) as u8,
            }
        } else {
            Value { low, high, zeros }
        }
    }

    // Nothing is known: any 16 bits.
    pub fn unknown() -> Value
        ensures { result ≡ unknown_of }
    {
        Value::interval(0, MAX, 0)
    }

    // One known number.
    pub fn exactly(x: u16) -> Value
        ensures { result ≡ exactly_of x }
    {
        Value::interval(x, x, 0)
    }

    // LDRB: a byte with 0 above it.
    pub fn byte() -> Value
        ensures { result ≡ byte_of }
    {
        Value::interval(0, 255, 0)
    }

    // ASR: a number without its top bit gets no larger; one with it may become
    // anything. The shift moves any bit to the lowest place.
    #[tactic(auto, unfolding(crate::specs::Value::asr_of))]
    pub fn asr(self) -> Value
        ensures { result ≡ asr_of self }
    {
        if self.high <= MAX_POSITIVE {
            Value::interval(0, self.high, 0)
        } else {
            Value::unknown()
        }
    }
}

// ADD: the bounds are added, unless the sum of the upper ones is no 16-bit
// number; then the register may have wrapped to anything. A low bit is 0 if it
// is 0 in both.
impl Add for Value {
    type Output = Value;

    ghost use Rattle.domain.specs.Value.{add_of};

    ghost add_gives = { λ a b r. r ≡ add_of a b };

    #[tactic(auto, unfolding(crate::specs::Value::add_of))]
    fn add(self, other: Value) -> Value {
        let zeros = self.zeros.min(other.zeros);
        match self.high.checked_add(other.high) {
            Some(high) => Value::interval(self.low.saturating_add(other.low), high, zeros),
            None => Value::interval(0, MAX, zeros),
        }
    }
}

// AND: no more than either operand. A low bit is 0 if it is 0 in one of them.
impl BitAnd for Value {
    type Output = Value;

    ghost use Rattle.domain.specs.Value.{and_of};

    ghost bitand_gives = { λ a b r. r ≡ and_of a b };

    #[tactic(auto, unfolding(crate::specs::Value::and_of))]
    fn bitand(self, other: Value) -> Value {
        Value::interval(0, self.high.min(other.high), self.zeros.max(other.zeros))
    }
}

// EOR: no longer than the longer operand. A low bit is 0 if it is 0 in both.
impl BitXor for Value {
    type Output = Value;

    ghost use Rattle.domain.specs.Value.{eor_of};

    ghost bitxor_gives = { λ a b r. r ≡ eor_of a b };

    #[tactic(auto, unfolding(crate::specs::Value::eor_of))]
    fn bitxor(self, other: Value) -> Value {
        let longer = self.high.max(other.high);
        Value::interval(0, ones(longer), self.zeros.min(other.zeros))
    }
}

// NEG: the low bits that are 0 stay 0.
impl Neg for Value {
    type Output = Value;

    ghost use Rattle.domain.specs.Value.{neg_of};

    ghost neg_gives = { λ a r. r ≡ neg_of a };

    fn neg(self) -> Value {
        Value::interval(0, MAX, self.zeros)
    }
}

// The largest number that has no more bits than `x`.
fn ones(x: u16) -> u16
    ensures { result ≡ ones_of (bit_length_of x) }
{
    let bits = 16 - u16::leading_zeros(x);
    ((1u32 << bits) - 1) as u16
}
