#![tactic(auto)]

// No code: the definition of the carried file (specs/).
