// What is wrong with a code, in words.
use super::arguments::Window;
use refusals::{Check, Refusal};
use streams::Ascii;
use units::{ByteAddress, InstructionIndex};

fn say_code_length(rt: &impl Eprint, n: usize) {
    let found = if n == 0 { "is none" } else { "are more" };
    let _ = eprintln!(rt; "  Check 15: the code has 1 to 15936 halfwords.\n  There {found}.");
}

fn say_window(rt: &impl Eprint, n: usize, window: Window) {
    let end = ByteAddress::from(InstructionIndex((n % 65536) as u16)).0;
    let _ = eprintln!(rt;
        "  Check 8: the window lies behind the code and within memory, is not empty, and 4\n  \
         divides its start w and its length l.\n  \
         The code has {end} bytes, w is {}, l is {}.",
        window.start, window.length
    );
}

// The line of a refusal, and what its check asks of `n` halfwords with the window.
pub(crate) fn say_refusal(rt: &impl Eprint, r: Refusal, n: usize, window: Window) {
    let _ = eprint!(rt; "{}", Ascii(lines::verdict_line(Err(r)).as_bytes()));
    match r.check {
        Check::Window => say_window(rt, n, window),
        Check::CodeLength => say_code_length(rt, n),
        _ => (),
    }
}
