// No code: the history machine and the statement of demand 3 are in specs/.
#![tactic(auto)]
