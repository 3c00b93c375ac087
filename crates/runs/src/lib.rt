// No code: the book, the runs and the theorem of demand 3 stand in specs/, the proof in proofs/. The code that replays
// a log is the crate `logs`.
#![tactic(auto)]
