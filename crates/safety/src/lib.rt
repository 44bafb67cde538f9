// No code: the safety theorem, and which bytes of memory have a part in a step.
// The claims are in specs/, their proofs in proofs/.

#![tactic(auto)]
