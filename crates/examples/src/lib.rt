#![tactic(auto)]

// No code: the starred examples of document 01, pixels through a LUT3D (document 02, W-201), Ranges with one end (W-202), and names of nodes (W-203): tables of questions with their answers, one statement a table.
