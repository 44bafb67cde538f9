// The image of the halfwords on standard input.
use super::arguments::Window;
use super::maker::pack;
use super::scanner::{Scan, ScanError};
use std::io;
use std::io::Read;

// Why there are no halfwords.
#[derive(Drop)]
pub enum InputError {
    Unread(io::Error),
    Endless,
    Scan(ScanError),
}

impl From<io::Error> for InputError {
    fn from(error: io::Error) -> InputError {
        InputError::Unread(error)
    }
}

impl From<ScanError> for InputError {
    fn from(error: ScanError) -> InputError {
        InputError::Scan(error)
    }
}

// The whole text, however long. A proved loop has to end and nothing says that a
// text does, so the turns are counted, up to a number that none uses up.
fn read(rt: &impl Input, scan: &mut Scan) -> Result<(), InputError> {
    let mut input = rt.reader();
    let mut buffer = [0u8; 4096];
    for _ in 0..u64::MAX {
        match input.read(&mut buffer)? {
            0 => return Ok(scan.finish()?),
            n => scan.take_piece(&buffer[..n])?,
        }
    }
    Err(InputError::Endless)
}

// Makes the image of the text, with the window.
pub(crate) fn make(rt: &(impl Input + Print + Eprint + AllocGlobal), window: Window) {
    let mut scan = Scan::new();
    match read(rt, &mut scan) {
        Ok(()) => {
            if let Err(error) = pack(rt, scan.code.as_slice(), window) {
                streams::say_failure(rt, "pack: standard output", error);
            }
        }
        Err(InputError::Unread(error)) => {
            streams::say_failure(rt, "pack: standard input", error);
        }
        Err(InputError::Endless) => {
            let _ = eprintln!(rt; "pack: standard input does not end");
        }
        Err(InputError::Scan(error)) => {
            let line = scan.line();
            let _ = eprintln!(rt; "pack: line {line}: {error}");
        }
    }
}
