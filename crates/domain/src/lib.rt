// The abstract domain of the verifier: what is known of a 16-bit register
// before the program runs, and what each instruction makes of it. A value is an
// interval together with a count of low bits that are known to be 0.
#![tactic(auto)]

mod value;

pub use value::Value;
