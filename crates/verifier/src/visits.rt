// What is done at an instruction: its checks, and the state behind it. A halfword
// goes by its bits to what its format asks; an enum of instructions between the
// two would go through memory. Branches, operations on registers, loads and
// stores are told by tests: a processor foresees a test better than one way more
// out of a table.
ghost use Rattle.std.specs.Prelude.{cond, ◌≡◌, eqb, set, None};
ghost use Rattle.units.specs.Address.{pc_sum};
ghost use Rattle.units.specs.Field.{field};
ghost use Rattle.isa.specs.Decode.{halt_of, alu_of, high_of, registers_of, memory_of, decode_of};
ghost use Rattle.domain.specs.Value.{exactly_of};
ghost use Rattle.targets.specs.Targets.{jump_at};
ghost use Rattle.checks.specs.State as state;
ghost use Rattle.verifier.specs.Visit.{Visited};

use super::state::State;
use checks::{check_byte, check_halfword, check_target, check_write};
use domain::Value;
use image::Layout;
use refusals::Check;
use targets::jump;
use units::ByteAddress;

// The top three bits of operations on registers, and of loads and stores.
const REGISTER_FORMAT: u8 = 2;

const MEMORY_FORMAT: u8 = 3;

fn visit_halt(h: u16) -> Result<(), Check>
    ensures { (layout : Layout) (a : ByteAddress) (s : state.State) → Visited layout a (halt_of h) s s result }
{
    if h < 256 { Ok(()) } else { Err(Check::Defined) }
}

// CMP of two registers of which one is high: bits 9 to 6 are 01 with H1, H2 or
// both behind it. With two low registers, or with bit 9 set, it is no instruction.
fn visit_compare(h: u16) -> Result<(), Check>
    requires { field h 8 1 ≡ 1 }
    ensures { (layout : Layout) (a : ByteAddress) (s : state.State) → Visited layout a (high_of h) s s result }
{
    match units::bits(h, 6, 4) {
        5..=7 => Ok(()),
        _ => Err(Check::Defined),
    }
}

impl State {
    // MOV of an immediate.
    fn move_imm(&mut self, h: u16)
        ensures { self.new ≡ set self.old (field h 8 3) (exactly_of (field h 0 8)) }
    {
        let imm = units::bits(h, 0, 8) as u16;
        self.set(units::bits(h, 8, 3), Value::exactly(imm));
    }

    fn visit_alu(&mut self, h: u16) -> Result<(), Check>
        ensures { (layout : Layout) (a : ByteAddress)
            → Visited layout a (alu_of h) self.old self.new result }
    {
        let rd = units::bits(h, 0, 3);
        let d = self.get(rd);
        let s = self.get(units::bits(h, 3, 3));
        match units::bits(h, 6, 4) {
            0 => {
                self.set(rd, d & s);
                Ok(())
            }
            1 => {
                self.set(rd, d ^ s);
                Ok(())
            }
            2 => {
                self.set(rd, d.asr());
                Ok(())
            }
            3 => Ok(()),
            4 => {
                self.set(rd, -s);
                Ok(())
            }
            5 => Ok(()),
            _ => Err(Check::Defined),
        }
    }

    // ADD, MOV and CMP of any registers.
    fn visit_high(&mut self, h: u16) -> Result<(), Check>
        ensures { (layout : Layout) (a : ByteAddress)
            → Visited layout a (high_of h) self.old self.new result }
    {
        if units::bits(h, 8, 1) == 1 {
            return visit_compare(h);
        }
        let rd = units::high_rd(h);
        let s = self.get(units::high_rs(h));
        if units::bits(h, 9, 1) == 1 {
            self.set(rd, s);
            return check_write(rd);
        }
        let d = self.get(rd);
        self.set(rd, d + s);
        check_write(rd)
    }

    // The operations on registers, in two formats.
    fn visit_registers(&mut self, h: u16) -> Result<(), Check>
        ensures { (layout : Layout) (a : ByteAddress)
            → Visited layout a (registers_of h) self.old self.new result }
    {
        match units::bits(h, 10, 3) {
            0 => self.visit_alu(h),
            1 => self.visit_high(h),
            _ => Err(Check::Defined),
        }
    }

    // ADD Rd, PC at an address.
    fn add_pc(&mut self, a: ByteAddress, h: u16)
        ensures { self.new ≡ set self.old (field h 8 3) (exactly_of (pc_sum a (field h 0 8))) }
    {
        let sum = a.pc_sum(units::bits(h, 0, 8));
        self.set(units::bits(h, 8, 3), Value::exactly(sum));
    }

    // What a load leaves in its register. Bit 11 tells it from a store, which leaves
    // every value as it is.
    fn load_or_store(&mut self, h: u16, loaded: Value)
        ensures { self.new ≡ cond (eqb (field h 11 1) 0) self.old (set self.old (field h 0 3) loaded) }
    {
        if units::bits(h, 11, 1) != 0 {
            self.set(units::bits(h, 0, 3), loaded);
        }
    }

    // Loads and stores, of halfwords and of bytes, which bit 12 tells apart.
    fn visit_memory(&mut self, layout: Layout, h: u16) -> Result<(), Check>
        ensures { (a : ByteAddress) → Visited layout a (memory_of h) self.old self.new result }
    {
        let base = self.get(units::bits(h, 3, 3));
        if units::bits(h, 12, 1) == 0 {
            self.load_or_store(h, Value::unknown());
            check_halfword(base, layout, h)
        } else {
            self.load_or_store(h, Value::byte());
            check_byte(base, layout, h)
        }
    }

    // Checks 9 to 12 of a halfword that is no branch, and the state behind it.
    fn visit_straight(&mut self, layout: Layout, a: ByteAddress, h: u16) -> Result<(), Check>
        requires { jump_at a (decode_of h) ≡ None }
        ensures { Visited layout a (decode_of h) self.old self.new result }
    {
        if units::bits(h, 13, 3) == REGISTER_FORMAT {
            return self.visit_registers(h);
        }
        if units::bits(h, 13, 3) == MEMORY_FORMAT {
            return self.visit_memory(layout, h);
        }
        match units::bits(h, 11, 5) {
            0 => visit_halt(h),
            4 => {
                self.move_imm(h);
                Ok(())
            }
            // CMP of an immediate leaves every value as it is
            5 => Ok(()),
            20 => {
                self.add_pc(a, h);
                Ok(())
            }
            _ => Err(Check::Defined),
        }
    }

    // Checks 9 to 13 of the halfword at an address, and the state behind it, which a
    // branch leaves as it is.
    pub(crate) fn visit(&mut self, layout: Layout, a: ByteAddress, h: u16) -> Result<(), Check>
        ensures { Visited layout a (decode_of h) self.old self.new result }
    {
        match jump(a, h) {
            Some(target) => check_target(target, layout),
            None => self.visit_straight(layout, a, h),
        }
    }
}
