#![tactic(auto)]

// The laws of this crate stand in specs/: what is written reads back. There is no code.
