// No code: that widening is a simulation, step by step and over whole runs, stands in specs/, and the proof in proofs/.
#![tactic(auto)]
