// Bytes of memory. It has one for each address, so no access can be out of it.
ghost use Rattle.std.specs.Prelude.{◌≡◌};
ghost use Rattle.units.specs.Bytes.{byte_at, with_byte};

use units::Memory;

pub(crate) fn load_byte(memory: &Memory, a: u16) -> u16
    ensures { result ≡ byte_at memory.now a }
{
    memory[a as usize] as u16
}

pub(crate) fn store_byte(memory: &mut Memory, a: u16, x: u16)
    ensures { memory.new ≡ with_byte memory.old a x }
{
    memory[a as usize] = (x % 256) as u8;
}
