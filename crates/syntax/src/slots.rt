// Words in the slots of a line, read from a place of a text. None of them looks at
// what follows its word: in every pattern that is a character that no word has, so
// a word that goes on is refused there.
ghost use Rattle.std.specs.Prelude.{true, false, ◌≡◌, ◌+◌, ◌≤◌, length, drop};
ghost use Rattle.text.specs.Text.{is_digit};
ghost use Rattle.syntax.specs.Syntax.{too_large};
ghost use Rattle.syntax.specs.Slots.{number_as, with_digit, letters_value, letters_in};
ghost use Rattle.syntax.specs.Spots.{SpotAt, RegisterAt, Digits, begins_digit};
ghost use Rattle.syntax.specs.Spots.{number_slot, name_slot, condition_slot};

use text::{byte_at, in_name, is_digit, is_small};

// What a word says, and where it ends.
#[derive(Clone, Copy)]
pub struct Spot {
    pub value: u64,
    pub stop: usize,
}

// No field holds so much.
const TOO_LARGE: u64 = 65535;

// One more digit behind a number.
fn with_digit(value: u64, c: u8) -> u64
    requires { (value ≤ too_large) × (is_digit c ≡ true) }
    ensures { result ≡ with_digit value c }
{
    TOO_LARGE.min(value * 10 + (c - b'0') as u64)
}

// All digits from a place on, behind a number that stands before them.
fn digits_from(text: &[u8], at: usize, first: u64) -> Spot
    requires { (at ≤ length text.now) × (first ≤ too_large) }
    ensures { Digits text.now at first result.value result.stop
        × (begins_digit (drop result.stop text.now) ≡ false) }
{
    let mut value = first;
    for i in at..text.len() {
        let c = text[i];
        if !is_digit(c) {
            return Spot { value, stop: i };
        }
        value = with_digit(value, c);
    }
    Spot {
        value,
        stop: text.len(),
    }
}

// A number. A zero has no digit behind it.
#[tactic(auto, using(crate::proofs::Digits::number_zero))]
pub(crate) fn number_at(text: &[u8], at: usize) -> Option<Spot>
    requires { at ≤ length text.now }
    ensures { SpotAt number_slot text.now at result }
{
    let first = byte_at(text, at);
    if !is_digit(first) {
        return None;
    }
    if first == b'0' {
        return Some(Spot {
            value: 0,
            stop: at + 1,
        });
    }
    Some(digits_from(text, at + 1, (first - b'0') as u64))
}

// A register, R0 to R15.
pub(crate) fn register_at(text: &[u8], at: usize) -> Option<Spot>
    requires { at ≤ length text.now }
    ensures { RegisterAt text.now at result }
{
    if byte_at(text, at) != b'R' {
        return None;
    }
    let d = byte_at(text, at + 1);
    if !is_digit(d) {
        return None;
    }
    if d != b'1' {
        return Some(Spot {
            value: (d - b'0') as u64,
            stop: at + 2,
        });
    }
    let e = byte_at(text, at + 2);
    if e < b'0' || b'5' < e {
        return Some(Spot {
            value: 1,
            stop: at + 2,
        });
    }
    Some(Spot {
        value: 10 + (e - b'0') as u64,
        stop: at + 3,
    })
}

// A name: a small letter, and up to seven small letters or digits behind it. Its
// value is its bytes as one number, the first the highest.
pub(crate) fn name_at(text: &[u8], at: usize) -> Option<Spot>
    requires { at ≤ length text.now }
    ensures { SpotAt name_slot text.now at result }
{
    let first = byte_at(text, at);
    if !is_small(first) {
        return None;
    }
    let limit = (at + 8).min(text.len());
    let mut value = first as u64;
    for i in at + 1..limit {
        let c = text[i];
        if !in_name(c) {
            return Some(Spot { value, stop: i });
        }
        value = value * 256 + c as u64;
    }
    Some(Spot { value, stop: limit })
}

// A condition's number, by its two letters.
#[tactic(auto, unfolding(crate::specs::Slots::letters_value))]
fn condition_number(letters: &[u8; 2]) -> Option<u64>
    ensures { result ≡ number_as (letters_value (letters_in letters.now)) }
{
    match letters {
        b"EQ" => Some(0),
        b"NE" => Some(1),
        b"CS" => Some(2),
        b"CC" => Some(3),
        b"MI" => Some(4),
        b"PL" => Some(5),
        b"VS" => Some(6),
        b"VC" => Some(7),
        b"HI" => Some(8),
        b"LS" => Some(9),
        b"GE" => Some(10),
        b"LT" => Some(11),
        b"GT" => Some(12),
        b"LE" => Some(13),
        _ => None,
    }
}

// A condition: its two letters.
pub(crate) fn condition_at(text: &[u8], at: usize) -> Option<Spot>
    requires { at ≤ length text.now }
    ensures { SpotAt condition_slot text.now at result }
{
    let letters = [byte_at(text, at), byte_at(text, at + 1)];
    let value = condition_number(&letters)?;
    Some(Spot {
        value,
        stop: at + 2,
    })
}
