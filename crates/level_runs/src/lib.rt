// No code: whole runs of two levels, and demand 3 of each, stand in specs/, and the proofs in proofs/.
#![tactic(auto)]
