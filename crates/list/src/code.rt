// The code of an image as halfwords.
ghost use Rattle.std.specs.Prelude.{[], ◌≡◌, Ok};
ghost use Rattle.image.specs.Check.{check_of};
ghost use Rattle.image.specs.Code.{code_of};

use arrayvec::ArrayVec;
use image::{Layout, MOST_CODE};
use units::InstructionIndex;

// Puts the code of a file of which the checks say this layout into an empty vector.
pub(crate) fn read_code(file: &[u8], layout: Layout, code: &mut ArrayVec<u16, MOST_CODE>)
    requires checked { check_of file.now ≡ Ok layout }
    requires empty { code.old.items ≡ [] }
    ensures { code.new.items ≡ code_of file.now }
{
    for i in 0..layout.count().0 {
        let h = image::code_at(file, InstructionIndex(i));
        code.push(h);
    }
}
