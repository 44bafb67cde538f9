// Theorems about images: the packer and the check undo each other, what a block's
// halfwords sum to from the back, and what a file's reader answers call by call.
// The claims are in specs/, their proofs in proofs/; there is no code here.

#![tactic(auto)]
