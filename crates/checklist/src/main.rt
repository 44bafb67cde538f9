// The engineers' checklist for an image on standard input: the manual's date,
// the blocks read, the judge's line, and how a run of the loaded program from a
// cleared machine ends. It stops at the first line that refuses, and says under it
// in words what the check asks and what it found. The budget of the run is the
// argument, 1,000,000 steps if there is none. A read or a write that fails is told
// on standard error.
#![tactic(auto)]

mod argument;
mod places;
mod report;
mod words;

// One byte more than the longest image, so that a longer file is seen to be
// longer and no more of it is read.
const MOST: usize = image::MOST_BYTES + 1;

fn main(rt: HostRuntime) {
    match argument::read_budget(&rt) {
        Ok(budget) => streams::answer_input(&rt, "checklist", &mut [0u8; MOST], |file| {
            report::print_lines(&rt, file, budget)
        }),
        Err(error) => {
            let _ = eprintln!(rt; "checklist: {error}");
        }
    }
}
