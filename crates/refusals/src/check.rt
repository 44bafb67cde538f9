// The checks, one for each question of the papers that can refuse.
ghost use Rattle.std.specs.Prelude.{◌≡◌};
ghost use Rattle.refusals.specs.Check.{check_number};

#[derive(Clone, Copy, PartialEq, Eq, Debug)]
pub enum Check {
    MemorySize,
    FileLength,
    Mark,
    Sum,
    Numbering,
    Filling,
    SameWindow,
    Window,
    Defined,
    Access,
    Alignment,
    PcWrite,
    Target,
    LastHalt,
    CodeLength,
    OutputLength,
    Fields,
    Line,
    Label,
    Value,
}

// The number of the question. 18 to 20 are stops of a run, no refusals.
impl From<Check> for u8 {
    ghost from_gives = { λ check n. n ≡ check_number check };

    fn from(check: Check) -> u8 {
        match check {
            Check::MemorySize => 1,
            Check::FileLength => 2,
            Check::Mark => 3,
            Check::Sum => 4,
            Check::Numbering => 5,
            Check::Filling => 6,
            Check::SameWindow => 7,
            Check::Window => 8,
            Check::Defined => 9,
            Check::Access => 10,
            Check::Alignment => 11,
            Check::PcWrite => 12,
            Check::Target => 13,
            Check::LastHalt => 14,
            Check::CodeLength => 15,
            Check::OutputLength => 16,
            Check::Fields => 17,
            Check::Line => 21,
            Check::Label => 22,
            Check::Value => 23,
        }
    }
}
