// No code: what follows from the definitions of a step and a run. The claims
// are in specs/, their proofs in proofs/.

#![tactic(auto)]
