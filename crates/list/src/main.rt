// Writes the code of an image on standard input as an assembler text to standard
// output. What is wrong with the image or its code is told on standard error, and
// then standard output stays empty.
#![tactic(auto)]

mod code;
mod complaints;

use arrayvec::ArrayVec;
use refusals::Refusal;
use std::io;

// One byte more than the longest image, so that a longer file is seen to be
// longer and no more of it is read.
const MOST: usize = image::MOST_BYTES + 1;

// The longest listing: 19 bytes for an instruction and 8 for its label.
const MOST_TEXT: usize = 27 * image::MOST_CODE;

// Says why there is no listing.
fn refuse(rt: &impl Eprint, refusal: Refusal) -> io::Result<()> {
    complaints::say_refusal(rt, refusal);
    Ok(())
}

// Writes the listing of a code, which is made in the room. The room is lent, so that no
// proof here counts so long an array.
fn write_within(rt: &(impl Print + Eprint), code: &[u16], room: &mut [u8]) -> io::Result<()> {
    match lister::list(code, room) {
        Ok(n) => rt.write_all(&room[..n.min(room.len())]),
        Err(refusal) => refuse(rt, refusal),
    }
}

// The same in a room for any listing, to which a file that is no image never comes.
fn write_listing(rt: &(impl Print + Eprint), code: &[u16]) -> io::Result<()> {
    write_within(rt, code, &mut [0u8; MOST_TEXT])
}

// Fails where standard output does.
fn list(rt: &(impl Print + Eprint), file: &[u8]) -> io::Result<()> {
    match image::check(file) {
        Ok(layout) => {
            let mut code = ArrayVec::new();
            code::read_code(file, layout, &mut code);
            write_listing(rt, code.as_slice())
        }
        Err(refusal) => refuse(rt, refusal),
    }
}

fn main(rt: HostRuntime) {
    streams::answer_input(&rt, "list", &mut [0u8; MOST], |file| list(&rt, file));
}
