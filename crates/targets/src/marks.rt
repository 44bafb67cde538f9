// The marks of a code: a bit for each instruction, in words of 64.
use super::branch::jump;
use std::marker::Model;
use units::{ByteAddress, InstructionIndex};

// The most instructions that a code has: 64 for each word of marks.
const MOST_CODE: u16 = 15936;

// Which instructions of a code are marked. Contracts see the words.
#[derive(Drop)]
pub struct Marks {
    words: [u64; 249],
}

impl Model for Marks {
    ghost use Rattle.std.specs.Prelude.{◌≡◌, List, ℕ, length};
    ghost use Rattle.targets.specs.Targets.{mark_words};

    ghost Value = { List ℕ };

    ghost view = { λ marks. marks.words };

    ghost invariant = { λ marks. length marks.words ≡ mark_words };
}

impl Marks {
    ghost use Rattle.std.specs.Prelude.{false, ◌||◌, ◌≡◌, ℕ, ◌*◌, ◌<◌, eqb};
    ghost use Rattle.units.specs.Address.{byte_address_of};
    ghost use Rattle.isa.specs.Decode.{decode_of};
    ghost use Rattle.targets.specs.Targets.{jump_at, lands_on, mark_words, marked_at};

    // Nothing is marked yet.
    #[tactic(auto, using(crate::proofs::Bits::none_marked))]
    pub fn new() -> Marks
        ensures { (j : ℕ) → marked_at result j ≡ false }
    {
        Marks { words: [0; 249] }
    }

    // Whether an instruction is marked.
    pub fn is_marked(&self, i: InstructionIndex) -> bool
        requires { i.0 < 64 * mark_words }
        ensures { result ≡ marked_at self.now i.0 }
    {
        let number = i.0 as usize;
        (self.words[number / 64] >> (number % 64)) % 2 == 1
    }

    // Marks an instruction, and no other.
    pub fn mark(&mut self, i: InstructionIndex)
        requires { i.0 < 64 * mark_words }
        ensures { (j : ℕ) → marked_at self.new j ≡ (eqb i.0 j || marked_at self.old j) }
    {
        let number = i.0 as usize;
        self.words[number / 64] |= 1u64 << (number % 64);
    }

    // Marks what the halfword `h`, instruction `i`, branches to, if it is a branch
    // and a code can reach so far.
    pub fn mark_target(&mut self, i: InstructionIndex, h: u16)
        ensures { (j : ℕ) → j < 64 * mark_words → marked_at self.new j
            ≡ (lands_on (jump_at (byte_address_of i) (decode_of h)) j || marked_at self.old j) }
    {
        let Some(a) = jump(ByteAddress::from(i), h) else {
            return;
        };
        let target = InstructionIndex::from(a);
        if target.0 < MOST_CODE {
            self.mark(target);
        }
    }
}
