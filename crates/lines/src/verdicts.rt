// The lines of verdicts.
ghost use Rattle.std.specs.Prelude.{◌++◌, ◌≡◌, ◌+◌, ◌≤◌, length};
ghost use Rattle.text.specs.Text.{line_bytes};
ghost use Rattle.lines.specs.Lines.{number_text, fit_text, refused_text, verdict_text, longest_line};

use image::Layout;
use refusals::Refusal;
use text::Line;

// Adds a space and a number in decimal.
#[tactic(auto, using(text::proofs::Writing::decimal_at_most), unfolding(crate::specs::Lines::number_text))]
fn put_number(line: &mut Line, n: u16)
    requires { length line.old + 6 ≤ line_bytes }
    ensures text { line.new ≡ line.old ++ number_text n }
    ensures long { length line.new ≤ length line.old + 6 }
{
    line.put(b' ');
    line.put_decimal(n);
}

// `fit`, the code's length in bytes, the window's start and its length.
fn fit_line(layout: Layout) -> Line
    ensures { (result ≡ fit_text layout) × (length result ≤ longest_line) }
{
    let mut fit = Line::new();
    fit.put_all(b"fit");
    put_number(&mut fit, layout.code_bytes);
    put_number(&mut fit, layout.window_start);
    put_number(&mut fit, layout.window_length);
    fit.put(b'\n');
    fit
}

// `refused`, the number of the check that failed, and its place.
fn refused_line(r: Refusal) -> Line
    ensures { (result ≡ refused_text r) × (length result ≤ longest_line) }
{
    let mut refused = Line::new();
    refused.put_all(b"refused");
    put_number(&mut refused, u8::from(r.check) as u16);
    put_number(&mut refused, u16::from(r.place));
    refused.put(b'\n');
    refused
}

// The line of a verdict, with its line end.
pub fn verdict_line(v: Result<Layout, Refusal>) -> Line
    ensures { (result ≡ verdict_text v) × (length result ≤ longest_line) }
{
    match v {
        Ok(layout) => fit_line(layout),
        Err(r) => refused_line(r),
    }
}
