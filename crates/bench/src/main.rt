// Prints the rows of the bench table that no theorem holds, and the two totals,
// each computed by the proved functions. The manual's date comes first.
#![tactic(auto)]

mod counts;
mod rows;

use streams::Ascii;

fn main(rt: HostRuntime) {
    let _ = println!(rt; "{}", Ascii(&isa::MANUAL_DATE));
    rows::print_shift(&rt);
    rows::print_verdicts(&rt);
    counts::print_totals(&rt);
}
