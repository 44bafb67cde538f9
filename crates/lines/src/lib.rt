// The lines that the programs write for a verdict, as bytes.
#![tactic(auto)]

mod verdicts;

pub use verdicts::verdict_line;
