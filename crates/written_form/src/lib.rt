#![tactic(auto)]

// No code: the text of a written list, and what writing answers (specs/Written.antt).
