// No code: the book with room, the run with lent room and what is proved of them stand in specs/, and the proofs in proofs/.
#![tactic(auto)]
