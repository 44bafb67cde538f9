// No code: the rules of `domain` are sound. If a register's number lies in its
// abstract value, the number that the machine makes of it lies in the value that
// the rule makes of that (specs/Sound.antt; what lies in a value is
// specs/Holds.antt). And they keep bounds in order (specs/Ordered.antt,
// proofs/Ordered.antt).

#![tactic(auto)]
