// What a step touches in memory, and the log in which a run keeps it.
#![tactic(auto)]

mod data;
mod log;

pub use data::Traffic;
pub use log::Log;
