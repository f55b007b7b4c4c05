// No code: the exact chain at depth n, and demand 3 with its proof.
#![tactic(auto)]
