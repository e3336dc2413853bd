#![tactic(auto)]

// No code: laws that the proofs of byte-scanning functions rewrite with (specs/Steps.antt).
