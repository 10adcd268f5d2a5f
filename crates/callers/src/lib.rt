// No code: what a caller in C sees of the four calls, and the statement that demand 3 holds of it, are in specs/.
#![tactic(auto)]
