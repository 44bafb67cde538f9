// What the programs do with what the system hands them: arguments are counted, input is
// read into a buffer, and a read or a write that fails is told on standard error.
#![tactic(auto)]

ghost use Rattle.std.specs.Prelude.{◌≤◌, IfSome};
ghost use Rattle.std.specs.Io.{ReadsAtMost};

use std::env::FillError;
use std::io::Read;
use std::rt::Env;
use std::{fmt, io};

// Whether there is an argument `i`.
fn is_given(rt: &impl Env, i: usize) -> bool {
    !matches!(rt.arg(i, &mut [0u8; 1]), Err(FillError::NotPresent))
}

// How many arguments there are behind the program's name, counted up to `most`.
pub fn count_arguments(rt: &impl Env, most: usize) -> usize
    ensures { result ≤ most }
{
    (0..most).take_while(|&i| is_given(rt, i + 1)).count()
}

// What `read` makes of argument `i`, if that has no more than 4096 bytes.
pub fn read_argument<T, F: FnOnce(&[u8]) -> T>(rt: &impl Env, i: usize, read: F) -> Option<T>
    requires { F.IsAlwaysCallable read }
    ensures { IfSome result (λ t. (text : _) × F.post read text t) }
{
    let mut text = [0u8; 4096];
    let n = rt.arg(i, &mut text).ok()?;
    Some(read(&text[..n]))
}

// Reads until the buffer is full or the input ends, and answers how many bytes that
// put at the buffer's start. A loop, since `read_exact` doesn't say how many came before the end.
pub fn read_full(rt: &impl Input, buffer: &mut [u8]) -> io::Result<usize>
    ensures { ReadsAtMost result buffer.new }
{
    let mut input = rt.reader();
    let mut done = 0;
    while done < buffer.len() {
        let n = input.read(&mut buffer[done..])?;
        if n == 0 {
            break;
        }
        done += n;
    }
    Ok(done)
}

// ASCII text that is held in bytes, for printing, of which no contract speaks.
#[derive(Clone, Copy)]
pub struct Ascii<'a>(pub &'a [u8]);

impl fmt::Display for Ascii<'_> {
    fn fmt<W: fmt::Write>(&self, f: &mut fmt::Formatter<W>) -> fmt::Result {
        for &b in self.0 {
            f.write_char(char::from(b))?;
        }
        Ok(())
    }
}

// The system's words for an error, of which std also writes the number.
fn without_number(words: &str) -> &str {
    words
        .split_once(" (os error ")
        .map_or(words, |(reason, _)| reason)
}

// Tells what has failed, and the system's reason.
pub fn say_failure(
    rt: &(impl Eprint + AllocGlobal),
    what: impl fmt::Display + Drop,
    error: io::Error,
) {
    let _ = match format!(in rt.alloc(); "{error}") {
        Ok(words) => eprintln!(rt; "{what}: {}", without_number(words.as_str())),
        Err(_) => eprintln!(rt; "{what}: {error}"),
    };
}

// Reads the input into the room and hands it to `answer`, which writes what the program
// has to say of it. A read or a write that fails is told under the program's name. What
// the input has, and what is printed, no contract can tell.
pub fn answer_input<F: FnOnce(&[u8]) -> io::Result<()>>(
    rt: &(impl Input + Eprint + AllocGlobal),
    program: &str,
    room: &mut [u8],
    answer: F,
)
    requires { F.IsAlwaysCallable answer }
{
    match read_full(rt, room) {
        Ok(n) => {
            if let Err(error) = answer(&room[..n]) {
                say_failure(rt, format_args!("{program}: standard output"), error);
            }
        }
        Err(error) => say_failure(rt, format_args!("{program}: standard input"), error),
    }
}
