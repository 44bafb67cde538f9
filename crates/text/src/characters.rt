// Kinds of characters.
ghost use Rattle.std.specs.Prelude.{◌≡◌};
ghost use Rattle.text.specs.Text.{is_digit, is_small, in_name};

// The library's tests, promised by the words of the texts' definitions.
pub fn is_digit(c: u8) -> bool
    ensures { result ≡ is_digit c }
{
    c.is_ascii_digit()
}

// Whether a character is a small letter: a name begins with one, and in a pattern
// it is a slot.
pub fn is_small(c: u8) -> bool
    ensures { result ≡ is_small c }
{
    c.is_ascii_lowercase()
}

// Small letters and digits make up names.
pub fn in_name(c: u8) -> bool
    ensures { result ≡ in_name c }
{
    is_small(c) || is_digit(c)
}
