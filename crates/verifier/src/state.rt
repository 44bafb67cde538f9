// The abstract state: a word for each of R0 to R15, which holds the register's
// abstract value. A word is read and written at once, where a struct in memory
// would be written field by field. Contracts see the values, not the words.
ghost use Rattle.std.specs.Prelude.{◌≡◌, ◌<◌, replicate, set};
ghost use Rattle.checks.specs.State.{register_count, value};

use domain::Value;
use std::marker::Model;

// The machine has 16 registers.
const REGISTERS: usize = 16;

// A register's abstract value in one word: its bounds in 16 bits each, and the
// count above them.
#[derive(Clone, Copy)]
struct Word(u64);

impl Model for Word {
    ghost use Rattle.std.proofs.Common.{ap};
    ghost use Rattle.std.specs.Prelude.{◌+◌, ◌*◌, ◌/◌, ◌%◌, ◌<◌};
    ghost use Rattle.domain.specs.declared.value.Value as value;

    ghost Value = { value.Value };

    ghost view = { λ w. record { low = w.0 % 0x10000; high = w.0 / 0x10000 % 0x10000; zeros = w.0 / 0x100000000 } };

    ghost invariant = { λ w. w.0 < 0x10000000000 };

    ghost inverse = { λ v. record { 0 = v.low + v.high * 0x10000 + v.zeros * 0x100000000 } };

    ghost use Rattle.verifier.specs.Words.{parts_joined};

    ghost inverse_ok = { λ w fits. ap (λ n. record { 0 = n }) (parts_joined w.0) };
}

// The packing of a value.
impl From<Value> for Word {
    ghost from_gives = { λ v w. w ≡ v };

    fn from(v: Value) -> Word {
        Word((v.low as u64) + (v.high as u64) * 0x10000 + (v.zeros as u64) * 0x100000000)
    }
}

// What a word holds.
impl From<Word> for Value {
    ghost from_gives = { λ w v. v ≡ w };

    fn from(w: Word) -> Value {
        Value {
            low: (w.0 % 0x10000) as u16,
            high: (w.0 / 0x10000 % 0x10000) as u16,
            zeros: (w.0 / 0x100000000) as u8,
        }
    }
}

// What is known of each register.
#[derive(Drop)]
pub(crate) struct State {
    words: [Word; REGISTERS],
}

impl Model for State {
    ghost use Rattle.checks.specs.State as state;

    ghost Value = { state.State };

    ghost view = { λ s. s.words };
}

impl State {
    // The same value in every register.
    pub(crate) fn all(v: Value) -> State
        ensures { result ≡ replicate register_count v }
    {
        State {
            words: [Word::from(v); REGISTERS],
        }
    }

    // The value of a register.
    pub(crate) fn get(&self, r: u8) -> Value
        requires { r < register_count }
        ensures { result ≡ value self.now r }
    {
        Value::from(self.words[r as usize])
    }

    // Gives a register a value.
    pub(crate) fn set(&mut self, r: u8, v: Value)
        requires { r < register_count }
        ensures { self.new ≡ set self.old r v }
    {
        self.words[r as usize] = Word::from(v);
    }
}
