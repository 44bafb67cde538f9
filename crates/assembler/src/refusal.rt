// Refusals of a text.
use refusals::Check;

// The first check that fails, and the line where it does, counted from 1; 0 where it
// is the whole text's. The papers give a refusal without a place the place 0, theorems
// on texts say so (`Reason`), and C's word has that number.
#[derive(Clone, Copy, PartialEq, Eq, Debug)]
pub struct TextRefusal {
    pub check: Check,
    pub line: u64,
}
