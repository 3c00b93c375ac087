// No code: another's page, the second sort of leak, and what is proved of it stand in specs/, and the proofs in proofs/.
#![tactic(auto)]
