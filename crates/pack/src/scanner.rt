// Halfwords out of text, byte by byte.
use arrayvec::ArrayVec;
use digits::{digit_of, with_digit};
use std::fmt;

// One more than an image holds, so that the packer sees that there are too many.
const ROOM: usize = image::MOST_CODE + 1;

// A halfword has at most so many digits.
const MOST_DIGITS: u8 = 4;

// A byte of the text: the character, or a number where it has none of its own.
#[derive(Clone, Copy)]
pub struct Byte(pub u8);

impl fmt::Display for Byte {
    fn fmt<W: fmt::Write>(&self, f: &mut fmt::Formatter<W>) -> fmt::Result {
        let b = self.0;
        if b.is_ascii_graphic() {
            write!(f, "'{}'", char::from(b))
        } else {
            write!(f, "byte {b:#04X}")
        }
    }
}

// Why a text is none of halfwords.
#[derive(Clone, Copy)]
pub enum ScanError {
    NotHex(u8),
    TooLong,
    NoDigits,
}

impl fmt::Display for ScanError {
    fn fmt<W: fmt::Write>(&self, f: &mut fmt::Formatter<W>) -> fmt::Result {
        match self {
            ScanError::NotHex(b) => write!(f, "{} is no hexadecimal digit", Byte(*b)),
            ScanError::TooLong => write!(f, "a halfword has at most four digits"),
            ScanError::NoDigits => write!(f, "no digit stands behind 0x"),
        }
    }
}

// A halfword so far: how many digits it has, whether `0x` is in front, and its value.
// None has begun where it has neither.
#[derive(Clone, Copy, Default)]
pub struct Word {
    digits: u8,
    prefixed: bool,
    value: u16,
}

impl Word {
    // Whether a byte is the `x` of `0x`, in front of a halfword.
    fn is_prefix(self, b: u8) -> bool {
        matches!(b, b'x' | b'X') && !self.prefixed && self.digits == 1 && self.value == 0
    }

    // The halfword with a digit more.
    fn with(self, b: u8) -> Result<Word, ScanError> {
        let d = digit_of(b).ok_or(ScanError::NotHex(b))?;
        if self.digits >= MOST_DIGITS {
            return Err(ScanError::TooLong);
        }
        Ok(Word {
            digits: self.digits + 1,
            value: with_digit(self.value, d),
            ..self
        })
    }
}

// Where a scan stands: the line, the halfword that may have begun, whether a comment
// has, and whether the byte before was a carriage return. Within a piece of the text it
// goes from byte to byte by value, so that it is not kept in memory beside the halfwords.
#[derive(Clone, Copy)]
struct State {
    line: u64,
    word: Word,
    comment: bool,
    returned: bool,
}

impl State {
    // The end of a halfword, if one has begun. What there is no room for is left out:
    // it is too much already.
    fn end_word(self, code: &mut ArrayVec<u16, ROOM>) -> Result<State, ScanError> {
        let word = self.word;
        if word.digits > 0 {
            let _ = code.try_push(word.value);
        } else if word.prefixed {
            return Err(ScanError::NoDigits);
        }
        Ok(State {
            word: Word::default(),
            ..self
        })
    }

    // The end of a line, and of its comment. A carriage return with a line feed
    // behind it ends one line.
    fn end_line(self, b: u8) -> State {
        let ended = b == b'\n' && self.returned;
        State {
            comment: false,
            line: if ended {
                self.line
            } else {
                self.line.saturating_add(1)
            },
            ..self
        }
    }

    // A byte of a halfword or of a comment.
    fn take_character(self, b: u8) -> Result<State, ScanError> {
        if self.comment {
            return Ok(self);
        }
        let word = if self.word.is_prefix(b) {
            Word {
                prefixed: true,
                ..Word::default()
            }
        } else {
            self.word.with(b)?
        };
        Ok(State { word, ..self })
    }

    // One byte more of the text.
    fn take(self, b: u8, code: &mut ArrayVec<u16, ROOM>) -> Result<State, ScanError> {
        let next = match b {
            b' ' | b'\t' => self.end_word(code)?,
            b'\r' | b'\n' => self.end_word(code)?.end_line(b),
            b'#' => State {
                comment: true,
                ..self.end_word(code)?
            },
            _ => self.take_character(b)?,
        };
        Ok(State {
            returned: b == b'\r',
            ..next
        })
    }
}

// What is known after some of the text: where the scan stands, and the halfwords
// before.
#[derive(Drop)]
pub struct Scan {
    pub code: ArrayVec<u16, ROOM>,
    state: State,
}

impl Scan {
    // Before the text.
    pub(crate) fn new() -> Scan {
        Scan {
            code: ArrayVec::new(),
            state: State {
                line: 1,
                word: Word::default(),
                comment: false,
                returned: false,
            },
        }
    }

    // The line that the scan is in, counted from 1.
    pub(crate) fn line(&self) -> u64 {
        self.state.line
    }

    // Some of the text, up to its end or to what is no halfword.
    pub(crate) fn take_piece(&mut self, piece: &[u8]) -> Result<(), ScanError> {
        let mut state = self.state;
        for &b in piece {
            match state.take(b, &mut self.code) {
                Ok(next) => state = next,
                Err(error) => {
                    self.state = state;
                    return Err(error);
                }
            }
        }
        self.state = state;
        Ok(())
    }

    // The end of the text.
    pub(crate) fn finish(&mut self) -> Result<(), ScanError> {
        self.state = self.state.end_word(&mut self.code)?;
        Ok(())
    }
}
