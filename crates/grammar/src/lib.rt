#![tactic(auto)]

// No code: the forms of which the carried file is defined, and what holds of everything made of them (specs/).
