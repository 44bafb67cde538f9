// The PC and the flags, these as what they speak of, so that an instruction
// which sets them has hardly any work with them and only a branch looks closer.
// N is set where the result is 0x8000 or more, Z where its low 16 bits are 0; C
// where the sum has more than 16 bits, V where its low 16 have a sign that
// neither of its operands a and b has.
ghost use Rattle.std.specs.Prelude.{◌≡◌, ◌+◌};
ghost use Rattle.units.specs.Address.{wrap};
ghost use Rattle.alu.specs.Control.{moved};

#[derive(Clone, Copy, PartialEq, Eq, Debug)]
pub struct Control {
    pub pc: u16,
    pub result: u32,
    pub a: u16,
    pub b: u16,
    pub sum: u32,
}

impl Control {
    // The same flags at another PC.
    pub fn moved_to(self, pc: u16) -> Control
        ensures { result ≡ moved pc self }
    {
        Control { pc, ..self }
    }

    // The same flags at the next instruction. From the last halfword of memory the
    // PC goes round to the first.
    pub fn advanced(self) -> Control
        ensures { result ≡ moved (wrap (self.pc + 2)) self }
    {
        self.moved_to(self.pc.wrapping_add(2))
    }
}
