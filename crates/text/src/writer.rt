// Writing into a room, from a place on.
ghost use Rattle.std.specs.Prelude.{[], ◌∷◌, ◌≡◌, ◌<◌};
ghost use Rattle.text.specs.Text.{digit, decimal};
ghost use Rattle.text.specs.Writes.{Fits, Grew};

// A room that is written from a place on. Writing moves the place on.
#[derive(Drop)]
pub struct Writer<'a> {
    pub room: &'a mut [u8],
    pub at: usize,
}

impl<'a> Writer<'a> {
    // At the front of a room.
    pub fn new(room: &'a mut [u8]) -> Writer<'a>
        ensures same { result.room.ghost_name ≡ room.entry.ghost_name }
        ensures room { (result.room.now ≡ room.old) × (result.at ≡ 0) }
    {
        Writer { room, at: 0 }
    }

    // Writes a byte.
    pub fn put(&mut self, c: u8)
        requires { Fits (c ∷ []) self.old }
        ensures { Grew (c ∷ []) self.old self.new }
    {
        self.room[self.at] = c;
        self.at += 1;
    }

    // Writes the bytes of a word.
    pub fn put_all(&mut self, word: &[u8])
        requires { Fits word.now self.old }
        ensures { Grew word.now self.old self.new }
    {
        let end = self.at + word.len();
        self.room[self.at..end].copy_from_slice(word);
        self.at = end;
    }

    // Writes the digit of a power of ten, if the number is so large.
    fn put_digit(&mut self, n: u16, unit: u16)
        requires { Fits (digit n unit) self.old × (0 < unit) }
        ensures { Grew (digit n unit) self.old self.new }
    {
        if n >= unit {
            self.put(b'0' + (n / unit % 10) as u8);
        }
    }

    // Writes the digits of a number, each that it has: a call for each part of the
    // definition, of which a loop's invariant would have to say as much.
    fn put_digits(&mut self, n: u16)
        requires { Fits (decimal n) self.old }
        ensures { Grew (decimal n) self.old self.new }
    {
        self.put_digit(n, 10000);
        self.put_digit(n, 1000);
        self.put_digit(n, 100);
        self.put_digit(n, 10);
        self.put(b'0' + (n % 10) as u8);
    }

    // Writes a number in decimal. Most numbers of a listing have one digit.
    pub fn put_decimal(&mut self, n: u16)
        requires { Fits (decimal n) self.old }
        ensures { Grew (decimal n) self.old self.new }
    {
        if n < 10 {
            self.put(b'0' + n as u8);
        } else {
            self.put_digits(n);
        }
    }
}
