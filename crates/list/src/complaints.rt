// Why there is no listing.
use refusals::{Check, Refusal};
use streams::Ascii;

// What a check asks of a code; of an image the program `checklist` says it.
fn asked(check: Check) -> &'static str {
    match check {
        Check::Defined => "Check 9: every halfword of the code is an instruction.",
        Check::Target => "Check 13: every branch goes to an instruction of the code.",
        _ => "The file is no image; `checklist` says what the check asks and what it found.",
    }
}

// The line of a refusal, and what its check asks.
pub(crate) fn say_refusal(rt: &impl Eprint, r: Refusal) {
    let line = lines::verdict_line(Err(r));
    let _ = eprintln!(rt; "{}  {}", Ascii(line.as_bytes()), asked(r.check));
}
