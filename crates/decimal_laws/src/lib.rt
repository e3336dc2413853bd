#![tactic(auto)]

// No code: what follows from the definition of a number token (specs/Value.antt, proofs/Accepted.antt, proofs/Examples.antt).
