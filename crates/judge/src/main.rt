// Judges an image on standard input: one line, `fit` with the code's length in
// bytes and the window's start and length, or `refused` with the number of the
// first check that failed and its place. A read or a write that fails is told on
// standard error; after a read that fails nothing is judged.
#![tactic(auto)]

// One byte more than the longest image, so that a longer file is seen to be
// longer and no more of it is read.
const MOST: usize = image::MOST_BYTES + 1;

fn main(rt: HostRuntime) {
    streams::answer_input(&rt, "judge", &mut [0u8; MOST], |file| {
        rt.write_all(lines::verdict_line(verifier::verify(file)).as_bytes())
    });
}
