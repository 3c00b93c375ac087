// Whole logs in fragments, beside a tally: document 02, Ask 3. The definitions and the theorems stand in specs/, and the
// proofs in proofs/.
#![tactic(auto)]
