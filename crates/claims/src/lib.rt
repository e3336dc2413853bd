#![tactic(auto)]

// No code: the laws of the definition of reading, and demand 3 (specs/TriedFile.antt, specs/LookRuns.antt, proofs/).
