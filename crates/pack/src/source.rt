// The image of the assembler text on standard input.
ghost use Rattle.std.specs.Prelude.{◌≡◌, ◌-◌, length};
ghost use Rattle.pack.specs.Shown.{line_of};

use super::arguments::Window;
use super::maker::pack;
use super::scanner::Byte;
use assembler::TextRefusal;
use refusals::Check;
use std::{fmt, io};

// The longest text that is read. A program of the most instructions, with a label
// of the longest name before each, has less.
const MOST: usize = 524288;

// How much of a line is shown: no line of a good text has more.
const MOST_SHOWN: usize = 40;

// A line of the text for printing: a byte that is no character is told by its number.
#[derive(Clone, Copy)]
struct Excerpt<'a>(&'a [u8]);

impl fmt::Display for Excerpt<'_> {
    fn fmt<W: fmt::Write>(&self, f: &mut fmt::Formatter<W>) -> fmt::Result {
        for &b in self.0.iter().take(MOST_SHOWN) {
            match b {
                b' '..=b'~' => write!(f, "{}", char::from(b))?,
                _ => write!(f, "<{}>", Byte(b))?,
            }
        }
        if self.0.len() > MOST_SHOWN {
            write!(f, " ..")?;
        }
        Ok(())
    }
}

// Line `line` of a text, counted from 1, with no line feed; nothing if it has fewer.
fn line_of(text: &[u8], line: u64) -> &[u8]
    ensures { result.now ≡ line_of (line - 1) text.now }
{
    let mut at = 0;
    for k in 0..line.saturating_sub(1) {
        at = text.len().min(text::line_end(text, at) + 1);
    }
    &text[at..text::line_end(text, at)]
}

// What a check asks, in words.
fn asked(check: Check) -> &'static str {
    match check {
        Check::CodeLength => "  Check 15: a program has 1 to 15936 instructions.\n",
        Check::Line => {
            "  Check 21: a line is a label or an instruction of the syntax, with registers that\n  \
             its form holds, and ends in a line feed.\n"
        }
        Check::Label => {
            "  Check 22: a label is defined once, and a branch goes to a label of the text.\n"
        }
        Check::Value => {
            "  Check 23: a value fits its field, and a label is -256 to 254 bytes from the branch.\n"
        }
        _ => "",
    }
}

// The line of a refusal, what its check asks, and the line of the text.
fn say_refused(rt: &impl Eprint, text: &[u8], refusal: TextRefusal) {
    let TextRefusal { check, line } = refusal;
    let _ = eprint!(rt; "refused {} {line}\n{}", u8::from(check), asked(check));
    if line > 0 {
        let _ = eprintln!(rt; "  Line {line}: {}", Excerpt(line_of(text, line)));
    }
}

fn assemble(rt: &(impl Print + Eprint), text: &[u8], window: Window) -> io::Result<()> {
    let mut code = [0u16; image::MOST_CODE];
    match assembler::assemble(text, &mut code) {
        Ok(n) => pack(rt, &code[..n.min(image::MOST_CODE)], window),
        Err(refusal) => {
            say_refused(rt, text, refusal);
            Ok(())
        }
    }
}

// Room for one byte more than the longest text, so that a longer one is seen to be
// longer and no more of it is read. It has a function of its own, so that no other
// proof counts so long an array.
fn room() -> [u8; MOST + 1]
    ensures { length result ≡ 524289 }
{
    [0; MOST + 1]
}

// Makes the image of the text, with the window.
pub(crate) fn make(rt: &(impl Input + Print + Eprint + AllocGlobal), window: Window) {
    streams::answer_input(rt, "assemble", &mut room(), |text| {
        if text.len() > MOST {
            let _ = eprintln!(rt; "assemble: the text is longer than {MOST} bytes");
            return Ok(());
        }
        assemble(rt, text, window)
    });
}
