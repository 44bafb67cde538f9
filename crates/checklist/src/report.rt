// The checklist's lines. Each function answers whether all was written, and
// stops at the first write that fails.
ghost use Rattle.std.specs.Prelude.{◌≡◌};
ghost use Rattle.image.specs.Check.{check_of};

use super::places::print_place;
use super::words::asked;
use cpu::Machine;
use image::Layout;
use refusals::Refusal;
use runner::RunOutcome;
use std::io;
use streams::Ascii;

// How many blocks a reader of the file gives before it has none left, by what the
// checks said of it.
fn count_blocks(file: &[u8], checked: Result<Layout, Refusal>) -> usize
    requires { checked ≡ check_of file.now }
{
    (0..image::MOST_BLOCKS)
        .take_while(|&n| matches!(reader::given_checked(file, n, checked), Ok(Some(_))))
        .count()
}

// The line of a refusal, what its check asks, and what stands at its place.
fn print_refusal(rt: &impl Print, file: &[u8], refusal: Refusal) -> io::Result<()> {
    let line = lines::verdict_line(Err(refusal));
    print!(rt; "{}{}", Ascii(line.as_bytes()), asked(refusal.check))?;
    print_place(rt, file, refusal)
}

fn print_ending(rt: &impl Print, outcome: RunOutcome) -> io::Result<()> {
    match outcome {
        RunOutcome::Spent => print!(rt; "spent"),
        RunOutcome::Halted => print!(rt; "halt"),
        RunOutcome::Stopped(stop) => print!(rt; "stop {} after", u8::from(stop)),
        RunOutcome::Refused(r) => print!(rt; "refused {} after", u8::from(r.check)),
    }
}

// How a run ended, after how many steps, and its note. That is 0 at the start, so
// another one is HALT's; HALT with note 0 gives no reason, and none is printed.
fn print_ran(rt: &impl Print, outcome: RunOutcome, count: u32, note: u8) -> io::Result<()> {
    print_ending(rt, outcome)?;
    if note == 0 {
        println!(rt; " {count}")
    } else {
        println!(rt; " {count} note {note}")
    }
}

// Loads the program into a memory and runs it.
fn print_run(rt: &impl Print, file: &[u8], budget: u32) -> io::Result<()> {
    print!(rt; "Run: ")?;
    let mut memory = [0u8; 65536];
    match loader::load(file, &mut memory) {
        Ok(_) => {
            let ran = runner::run(Machine::default(), &mut memory, budget);
            print_ran(rt, ran.outcome, ran.count, ran.machine.note)
        }
        Err(refusal) => print_refusal(rt, file, refusal),
    }
}

fn print_window(rt: &impl Print, file: &[u8], budget: u32) -> io::Result<()> {
    print!(rt; "Window: ")?;
    let verdict = verifier::verify(file);
    match verdict {
        Ok(_) => {
            print!(rt; "{}", Ascii(lines::verdict_line(verdict).as_bytes()))?;
            print_run(rt, file, budget)
        }
        Err(refusal) => print_refusal(rt, file, refusal),
    }
}

fn print_blocks(rt: &impl Print, file: &[u8], budget: u32) -> io::Result<()> {
    print!(rt; "Blocks: ")?;
    let checked = image::check(file);
    match checked {
        Ok(_) => {
            println!(rt; "{}", count_blocks(file, checked))?;
            print_window(rt, file, budget)
        }
        Err(refusal) => print_refusal(rt, file, refusal),
    }
}

// All lines, down to the first that refuses.
pub(crate) fn print_lines(rt: &impl Print, file: &[u8], budget: u32) -> io::Result<()> {
    println!(rt; "Title page: {}", Ascii(&isa::MANUAL_DATE))?;
    print_blocks(rt, file, budget)
}
