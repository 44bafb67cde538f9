// Where branches go.
ghost use Rattle.std.specs.Prelude.{◌≡◌};
ghost use Rattle.isa.specs.Decode.{decode_of};
ghost use Rattle.targets.specs.Targets.{jump_at};

use units::ByteAddress;

// The upper bytes of branches: 1101, then a condition from 0 to 13.
const FIRST_BRANCH: u8 = 0xd0;

const LAST_BRANCH: u8 = 0xdd;

// Where the halfword at an address can go. It is looked at only as far as that
// needs, because every halfword of a code is asked.
pub fn jump(a: ByteAddress, h: u16) -> Option<ByteAddress>
    ensures { result ≡ jump_at a (decode_of h) }
{
    let upper = units::bits(h, 8, 8);
    if upper < FIRST_BRANCH || upper > LAST_BRANCH {
        return None;
    }
    Some(a.branch_target(units::bits(h, 0, 8)))
}
