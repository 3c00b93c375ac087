// No code: stale mappings, the third sort of finding, and what is proved of them stand in specs/, and the proofs in proofs/.
#![tactic(auto)]
