// The data that a step reads or writes, at the address of the first byte, or
// none. The halfword that it fetches is no data.
ghost use Rattle.std.specs.Prelude.{◌≡◌};
ghost use Rattle.traffic.specs.Data.{kind_touched, address_touched};

use units::ByteAddress;

#[derive(Clone, Copy, PartialEq, Eq, Debug)]
pub enum Traffic {
    NoData,
    ReadByte(ByteAddress),
    ReadHalfword(ByteAddress),
    WroteByte(ByteAddress),
    WroteHalfword(ByteAddress),
}

impl Traffic {
    // The kind of what is touched, as the number that C gets; 0 is no data.
    pub fn kind(self) -> u8
        ensures { result ≡ kind_touched self }
    {
        match self {
            Traffic::NoData => 0,
            Traffic::ReadByte(_) => 1,
            Traffic::ReadHalfword(_) => 2,
            Traffic::WroteByte(_) => 3,
            Traffic::WroteHalfword(_) => 4,
        }
    }

    // The address of its first byte; 0 of no data.
    pub fn address(self) -> u16
        ensures { result ≡ address_touched self }
    {
        match self {
            Traffic::NoData => 0,
            Traffic::ReadByte(a) => a.0,
            Traffic::ReadHalfword(a) => a.0,
            Traffic::WroteByte(a) => a.0,
            Traffic::WroteHalfword(a) => a.0,
        }
    }
}
