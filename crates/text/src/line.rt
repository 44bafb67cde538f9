// One line, held by itself.
ghost use Rattle.std.specs.Prelude.{[], ◌∷◌, ◌++◌, ◌≡◌, ◌+◌, ◌≤◌, ◌<◌, length, take};
ghost use Rattle.text.specs.Text.{decimal, line_bytes};

use super::writer::Writer;
use std::marker::Model;

// The room of a line. No line that the programs write has more.
pub const LINE_BYTES: usize = 32;

// The bytes of a line, its line feed among them. A clause sees those that count; 0 stands
// behind them.
#[derive(Drop)]
pub struct Line {
    bytes: [u8; LINE_BYTES],
    length: usize,
}

impl Model for Line {
    ghost use Rattle.std.specs.Prelude.{List, ℕ, ◌≤◌, take};
    ghost use Rattle.text.specs.Text.{line_bytes};
    ghost use Rattle.text.specs.Writes.{ZerosFrom};

    ghost Value = { List ℕ };

    ghost view = { λ l. take l.length l.bytes };

    ghost invariant = { λ l. (l.length ≤ line_bytes) × ZerosFrom l.length l.bytes };
}

impl Line {
    pub fn new() -> Line
        ensures { result ≡ [] }
    {
        Line {
            bytes: [0; LINE_BYTES],
            length: 0,
        }
    }

    // The line of bytes that were written at the front of an array.
    pub fn from_front(mut bytes: [u8; LINE_BYTES], length: usize) -> Line
        requires { length ≤ line_bytes }
        ensures { result ≡ take length bytes }
    {
        bytes[length..].fill(0);
        Line { bytes, length }
    }

    pub fn as_bytes(&self) -> &[u8]
        ensures { result.now ≡ self.now }
    {
        &self.bytes[..self.length]
    }

    // Adds a byte.
    pub fn put(&mut self, c: u8)
        requires { length self.old < line_bytes }
        ensures { self.new ≡ self.old ++ (c ∷ []) }
    {
        self.bytes[self.length] = c;
        self.length += 1;
    }

    // Adds the bytes of a word.
    pub fn put_all(&mut self, word: &[u8])
        requires { length self.old + length word.now ≤ line_bytes }
        ensures { self.new ≡ self.old ++ word.now }
    {
        for &c in word {
            self.put(c);
        }
    }

    // Adds a number in decimal.
    pub fn put_decimal(&mut self, n: u16)
        requires { length self.old + length (decimal n) ≤ line_bytes }
        ensures { self.new ≡ self.old ++ decimal n }
    {
        let mut out = Writer {
            room: &mut self.bytes,
            at: self.length,
        };
        out.put_decimal(n);
        self.length = out.at;
    }
}
