// Digits in text, and the numbers that they write.
#![tactic(auto)]

mod values;

pub use values::{
    Hex, LARGEST, NumberError, digit_of, grow, halfword, last_digit, number, with_digit,
};
