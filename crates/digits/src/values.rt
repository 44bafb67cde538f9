// What digits write, and how they are written.
ghost use Rattle.std.specs.Prelude.{◌≡◌, ◌≤◌, IfOk};
ghost use Rattle.digits.specs.Digits.{digit_of, digit_in, last_digit, with_digit, grown_by, grown_over};
ghost use Rattle.digits.specs.Digits.{number_of, halfword_of};

use std::fmt;

// The largest halfword.
pub const LARGEST: u32 = 65535;

// Why a text writes no number.
#[derive(Clone, Copy, PartialEq, Eq, Debug)]
pub enum NumberError {
    NotANumber,
    TooLarge,
}

// The value of a hexadecimal digit, of either case.
#[tactic(auto, unfolding(crate::specs::Digits::digit_of))]
pub fn digit_of(b: u8) -> Option<u8>
    ensures { result ≡ digit_of b }
{
    match b {
        b'0'..=b'9' => Some(b - b'0'),
        b'A'..=b'F' => Some(b - b'A' + 10),
        b'a'..=b'f' => Some(b - b'a' + 10),
        _ => None,
    }
}

// The last hexadecimal digit of a halfword, in capitals.
#[tactic(auto, unfolding(crate::specs::Digits::last_digit))]
pub fn last_digit(h: u16) -> u8
    ensures { result ≡ last_digit h }
{
    let d = (h % 16) as u8;
    if d < 10 { b'0' + d } else { b'A' + (d - 10) }
}

// A halfword as programs write it: four hexadecimal digits, with 0x in front.
#[derive(Clone, Copy, PartialEq, Eq, Debug)]
pub struct Hex(pub u16);

impl fmt::Display for Hex {
    ghost use Rattle.std.specs.Prelude.{Some};
    ghost use Rattle.digits.specs.Digits.{hex_text};

    ghost output = { λ x. Some (hex_text x.0) };

    fn fmt<W: fmt::Write>(&self, f: &mut fmt::Formatter<W>) -> fmt::Result {
        let first = char::from(last_digit(self.0 / 4096));
        let second = char::from(last_digit(self.0 / 256));
        let third = char::from(last_digit(self.0 / 16));
        let last = char::from(last_digit(self.0));
        write!(f, "0x{first}{second}{third}{last}")
    }
}

// A halfword with one hexadecimal digit more.
pub fn with_digit(h: u16, d: u8) -> u16
    ensures { result ≡ with_digit h d }
{
    h % 4096 * 16 + u16::from(d % 16)
}

// A number with one digit more; past `most` it stays past it.
#[tactic(auto, unfolding(crate::specs::Digits::grown_by))]
pub fn grow(radix: u8, most: u32, n: u64, d: u8) -> u64
    ensures { result ≡ grown_by radix most n d }
{
    if u64::from(most) < n {
        return n;
    }
    n * u64::from(radix) + u64::from(d)
}

// The value of a digit of a radix.
#[tactic(auto, unfolding(crate::specs::Digits::digit_in))]
fn digit_in(radix: u8, b: u8) -> Option<u8>
    ensures { result ≡ digit_in radix b }
{
    digit_of(b).filter(|&d| d < radix)
}

// What all bytes of a text come to as digits.
fn read_digits(text: &[u8], radix: u8, most: u32) -> Option<u64>
    ensures { result ≡ grown_over radix most 0 text.now }
{
    let mut n = 0;
    for &b in text {
        n = grow(radix, most, n, digit_in(radix, b)?);
    }
    Some(n)
}

// The number up to `most` that a text writes: one digit or more, with no sign.
pub fn number(text: &[u8], radix: u8, most: u32) -> Result<u32, NumberError>
    ensures value { result ≡ number_of radix most text.now }
    ensures bound { IfOk result (λ n. n ≤ most) }
{
    if text.is_empty() {
        return Err(NumberError::NotANumber);
    }
    let n = read_digits(text, radix, most).ok_or(NumberError::NotANumber)?;
    if n > u64::from(most) {
        return Err(NumberError::TooLarge);
    }
    Ok(n as u32)
}

// The halfword that a text writes, in decimal, or in hexadecimal with 0x in front.
pub fn halfword(text: &[u8]) -> Result<u16, NumberError>
    ensures { result ≡ halfword_of text.now }
{
    let n = match text {
        [b'0', b'x' | b'X', digits @ ..] => number(digits, 16, LARGEST)?,
        _ => number(text, 10, LARGEST)?,
    };
    Ok(n as u16)
}
