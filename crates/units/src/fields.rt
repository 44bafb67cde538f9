// The fields of a halfword. Every part that takes an instruction apart reads
// them here; only a run asks for the upper ten bits at once itself.
ghost use Rattle.std.specs.Prelude.{◌≡◌, ◌<◌, ◌≤◌};
ghost use Rattle.units.specs.Field.{field, high_rs, high_rd};

// The `width` bits of a halfword from bit `at` up.
pub fn bits(h: u16, at: u16, width: u16) -> u8
    requires { (at < 16) × (width ≤ 8) }
    ensures { result ≡ field h at width }
{
    ((h >> at) & ((1u16 << width) - 1)) as u8
}

// Rs with H2 in front: the bits stand side by side.
pub fn high_rs(h: u16) -> u8
    ensures { result ≡ high_rs h }
{
    bits(h, 3, 4)
}

// Rd with H1 in front.
pub fn high_rd(h: u16) -> u8
    ensures { result ≡ high_rd h }
{
    (bits(h, 7, 1) << 3) | bits(h, 0, 3)
}
