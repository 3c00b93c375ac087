// No code: origins, and what is proved of them, stand in specs/, and the proofs in proofs/.
#![tactic(auto)]
