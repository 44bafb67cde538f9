// Makes an image: its code is halfwords in hexadecimal on standard input or, if
// there is a third argument `source`, an assembler text. The first two are w and
// l, where the window starts and how long it is, in bytes.
// The image goes to standard output. Whatever is wrong is told on standard
// error, and then standard output stays empty.
#![tactic(auto)]

mod arguments;
mod complaints;
mod halfwords;
mod maker;
mod scanner;
mod source;

use arguments::Program;

fn main(rt: HostRuntime) {
    match arguments::read(&rt) {
        Ok((Program::Pack, window)) => halfwords::make(&rt, window),
        Ok((Program::Assemble, window)) => source::make(&rt, window),
        Err(error) => {
            let _ = eprintln!(rt; "{error}");
        }
    }
}
