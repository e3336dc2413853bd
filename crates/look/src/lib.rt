#![tactic(auto)]

// No code: the definitions of a replacing call, of its element and of a look, which the code and demand 3 cite (specs/).
