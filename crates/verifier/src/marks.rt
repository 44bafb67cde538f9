// The branch targets of a code, marked.
ghost use Rattle.std.specs.Prelude.{false, ◌≡◌, ℕ, ◌<◌};
ghost use Rattle.image.specs.Code.{code_of};
ghost use Rattle.image.specs.Format.{most_code};
ghost use Rattle.targets.specs.Targets.{targeted, marked_at};

use super::code::Accepted;
use targets::Marks;

// Marks all branch targets of a code, forward and backward, where nothing is
// marked yet: then bit j is set exactly when some branch of the code goes to j.
// The marks are borrowed, since an answer of 2 KB would be copied.
pub(crate) fn mark_targets(code: Accepted<'_>, marks: &mut Marks)
    requires { (j : ℕ) → marked_at marks.old j ≡ false }
    ensures { (j : ℕ) → j < most_code
        → marked_at marks.new j ≡ targeted (code_of code.entry.file.now) j }
{
    for k in 0..code.blocks() {
        for n in 0..code.in_block(k) {
            let (i, h) = code.instruction(k, n);
            marks.mark_target(i, h);
        }
    }
}
