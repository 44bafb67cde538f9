// Bytes of a text, and where lines end.
ghost use Rattle.std.specs.Prelude.{◌≡◌, ◌+◌, ◌≤◌, ◌<◌, length, drop, get_or};
ghost use Rattle.text.specs.Text.{line_length};

// The byte at a place, and 0 behind the text: no character that lines are made of.
pub fn byte_at(text: &[u8], at: usize) -> u8
    ensures { result ≡ get_or text.now at 0 }
{
    text.get(at).copied().unwrap_or(0)
}

// How long a text's first line is: up to a line feed, or whole.
fn line_length(text: &[u8]) -> usize
    ensures { (result ≡ line_length text.now) × (result ≤ length text.now) }
{
    match text.iter().position(|&c| c == b'\n') {
        Some(i) => i,
        None => text.len(),
    }
}

// Where the line that starts at a place ends: at its line feed, or with the text.
pub fn line_end(text: &[u8], at: usize) -> usize
    requires { at ≤ length text.now }
    ensures { (result ≡ at + line_length (drop at text.now)) × (result ≤ length text.now)
        × (result < 9223372036854775808) }
{
    at + line_length(&text[at..])
}
