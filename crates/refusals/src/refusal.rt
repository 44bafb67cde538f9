// Refusals: which check failed, and where.
ghost use Rattle.std.specs.Prelude.{◌≡◌};

use super::check::Check;
use units::ByteAddress;

// What a refusal points at: nothing, a block of an image, or an instruction.
#[derive(Clone, Copy, PartialEq, Eq, Debug)]
pub enum Place {
    Nowhere,
    Block(u8),
    Address(ByteAddress),
}

// A place in one number.
impl From<Place> for u16 {
    ghost use Rattle.refusals.specs.Refusal.{place_number};

    ghost from_gives = { λ p n. n ≡ place_number p };

    fn from(p: Place) -> u16 {
        match p {
            Place::Nowhere => 0,
            Place::Block(b) => b as u16,
            Place::Address(a) => a.0,
        }
    }
}

// The first check that failed, and where.
#[derive(Clone, Copy, PartialEq, Eq, Debug)]
pub struct Refusal {
    pub check: Check,
    pub place: Place,
}

impl Refusal {
    ghost use Rattle.refusals.specs.Refusal.{refusal, refusal_in_block, refusal_at, refusal_word};

    fn with_place(check: Check, place: Place) -> Refusal
        ensures { (result.check ≡ check) × (result.place ≡ place) }
    {
        Refusal { check, place }
    }

    // The refusal of a check that has no place.
    pub fn new(check: Check) -> Refusal
        ensures { result ≡ refusal check }
    {
        Refusal::with_place(check, Place::Nowhere)
    }

    // The refusal of a check of block `k`.
    pub fn in_block(check: Check, k: u8) -> Refusal
        ensures { result ≡ refusal_in_block check k }
    {
        Refusal::with_place(check, Place::Block(k))
    }

    // The refusal of a check of the instruction at an address.
    pub fn at(check: Check, a: ByteAddress) -> Refusal
        ensures { result ≡ refusal_at check a }
    {
        Refusal::with_place(check, Place::Address(a))
    }

    // A refusal in one number, its place above its own.
    pub fn word(self) -> u64
        ensures { result ≡ refusal_word self }
    {
        let number = u8::from(self.check);
        let place = u16::from(self.place);
        (number as u64) + (place as u64) * 0x10000
    }
}
