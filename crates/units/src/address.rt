// Code is counted in instructions and in bytes. The two counts are types of
// their own, so that neither is taken for the other.
ghost use Rattle.std.specs.Prelude.{◌≡◌};
ghost use Rattle.units.specs.Address.{byte_address_of, instruction_index_of, branch_target_of, pc_sum};

// The number of an instruction in its code, from 0.
#[derive(Clone, Copy, PartialEq, Eq, Debug)]
pub struct InstructionIndex(pub u16);

// The address of a byte in memory.
#[derive(Clone, Copy, PartialEq, Eq, Debug)]
pub struct ByteAddress(pub u16);

// The bytes of the machine's memory, one for each address.
pub const MEMORY_BYTES: usize = 65536;

pub type Memory = [u8; MEMORY_BYTES];

// Where an instruction stands: twice its number. A number above 32,767 wraps,
// as every address of this machine does.
impl From<InstructionIndex> for ByteAddress {
    ghost from_gives = { λ i a. a ≡ byte_address_of i };

    fn from(i: InstructionIndex) -> ByteAddress {
        let number = i.0;
        ByteAddress(number.wrapping_add(number))
    }
}

// Which instruction stands at an address. An odd address lies in the
// instruction whose second byte it is.
impl From<ByteAddress> for InstructionIndex {
    ghost from_gives = { λ a i. i ≡ instruction_index_of a };

    fn from(a: ByteAddress) -> InstructionIndex {
        let address = a.0;
        InstructionIndex(address / 2)
    }
}

impl ByteAddress {
    // Where a taken branch at this address goes: `offset` is the signed byte of
    // its halfword, counted in instructions from the branch itself. Wraps. A test
    // of the sign would make runs slower.
    pub fn branch_target(self, offset: u8) -> ByteAddress
        ensures { result ≡ branch_target_of self offset }
    {
        let address = self.0;
        let forward = (offset as u16) * 2;
        let back = ((offset / 128) as u16) * 65024;
        ByteAddress(address.wrapping_add(forward + back))
    }

    // What ADD Rd, PC at this address gives: the address with its two low bits
    // cleared, plus four times an immediate. Wraps.
    pub fn pc_sum(self, imm: u8) -> u16
        ensures { result ≡ pc_sum self imm }
    {
        let aligned = self.0 / 4 * 4;
        aligned.wrapping_add(4 * (imm as u16))
    }
}
