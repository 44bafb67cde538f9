// No code: what holds of whole texts (specs/Claims.antt). The syntax is read
// exactly as its patterns say; a listing assembles to the code that it lists; each
// refusal of the assembler has its own sentence. Examples stand in
// specs/Examples.antt, each of them computed.

#![tactic(auto)]
