// The starred rows of the bench table, as one theorem. The claim is in specs/,
// its proof in proofs/; there is no code here.

#![tactic(auto)]
