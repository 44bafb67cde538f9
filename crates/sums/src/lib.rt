// The sum of halfwords, one halfword a call.
#![tactic(auto)]

mod adder;

pub use adder::add_to_sum;
