// No code: whole runs beside a tally, and demand 3 of them, stand in specs/, and the proofs in proofs/.
#![tactic(auto)]
