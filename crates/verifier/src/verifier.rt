// The walk over a code, and the verdict on a file.
ghost use Rattle.std.specs.Prelude.{cond, ◌≡◌, ◌<◌, length};
ghost use Rattle.units.specs.Address.{byte_address_of};
ghost use Rattle.image.specs.Code.{code_of};
ghost use Rattle.image.specs.Format.{most_code};
ghost use Rattle.targets.specs.Targets.{marked_at};
ghost use Rattle.checks.specs.State.{unknown_state, standing_at};
ghost use Rattle.verifier.specs.Progress.{PassedBelow};
ghost use Rattle.verifier.specs.Verify.{verify_code, verify_of};

use super::code::Accepted;
use super::marks::mark_targets;
use super::state::State;
use checks::{PC, answer_at, check_last};
use domain::Value;
use image::Layout;
use refusals::Refusal;
use targets::Marks;
use units::{ByteAddress, InstructionIndex};

impl State {
    // Makes of the state that falls into instruction `i` the one in which it is
    // checked: at a branch target nothing is known, and R15 is its own address.
    fn arrive(&mut self, marks: &Marks, i: InstructionIndex)
        requires { i.0 < most_code }
        ensures { self.new ≡ standing_at (byte_address_of i)
            (cond (marked_at marks.now i.0) unknown_state self.old) }
    {
        if marks.is_marked(i) {
            *self = State::all(Value::unknown());
        }
        self.set(PC, Value::exactly(ByteAddress::from(i).0));
    }
}

// The verdict on a code that passes every check but 14, which is about its last
// instruction.
fn check_end(code: Accepted<'_>) -> Result<Layout, Refusal>
    requires { PassedBelow (code_of code.file.now) code.layout (length (code_of code.file.now)) }
    ensures { result ≡ verify_code (code_of code.entry.file.now) code.entry.layout }
{
    let last = InstructionIndex(code.count() - 1);
    let found = check_last(image::code_at(code.file, last));
    answer_at(ByteAddress::from(last), found)?;
    Ok(code.layout)
}

// Checks 9 to 14 of a code, lowest address first. `state` holds the values that
// fall into an instruction, unknown at address 0.
fn walk(code: Accepted<'_>) -> Result<Layout, Refusal>
    ensures { result ≡ verify_code (code_of code.entry.file.now) code.entry.layout }
{
    let mut marks = Marks::new();
    mark_targets(code, &mut marks);
    let mut state = State::all(Value::unknown());
    for k in 0..code.blocks() {
        for n in 0..code.in_block(k) {
            let (i, h) = code.instruction(k, n);
            state.arrive(&marks, i);
            let a = ByteAddress::from(i);
            answer_at(a, state.visit(code.layout, a, h))?;
        }
    }
    check_end(code)
}

// Puts checks 2 to 14 to a file of any bytes and any length. A pass answers c, w
// and l; a refusal the first check that failed, and where: for checks 9 to 14
// the byte address of the instruction.
#[tactic(auto, unfolding(crate::specs::Verify::verify_of))]
pub fn verify(file: &[u8]) -> Result<Layout, Refusal>
    ensures { result ≡ verify_of file.now }
{
    let layout = image::check(file)?;
    walk(Accepted { file, layout })
}
