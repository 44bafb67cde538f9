// No code: what a verdict says, and what the states along the walk are
// (specs/Claims.antt). A file is fit exactly when it passes checks 2 to 8 and each
// instruction of its code passes checks 9 to 14 in the state before it, and
// refused by the first no. An instruction is a branch target exactly when a branch
// goes to it, and only there and at address 0 is what was known forgotten. The
// bounds of every value are in order.

#![tactic(auto)]
