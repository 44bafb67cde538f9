// Halfwords in a row of bytes, the low byte first.
ghost use Rattle.std.specs.Prelude.{◌≡◌, ◌+◌, ◌≤◌, length};
ghost use Rattle.units.specs.Bytes.{halfword_at, with_halfword};

// The halfword at byte `p`.
pub fn halfword_at(bytes: &[u8], p: usize) -> u16
    requires { p + 2 ≤ length bytes.now }
    ensures { result ≡ halfword_at bytes.now p }
{
    u16::from_le_bytes([bytes[p], bytes[p + 1]])
}

// Stores a halfword at byte `p`.
pub fn put_halfword(bytes: &mut [u8], p: usize, h: u16)
    requires { p + 2 ≤ length bytes.old }
    ensures { bytes.new ≡ with_halfword bytes.old p h }
{
    let [low, high] = h.to_le_bytes();
    bytes[p] = low;
    bytes[p + 1] = high;
}
