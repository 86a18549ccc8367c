// The one-sample machine, played: strip's definition is computed for lists of calls, and its lane's at the part's own rate, and each is
// what the Rust answered (proofs/Agrees.antt). antt's step limit ends a declaration after some 16 samples of a lane, so a long list is
// computed in stretches (proofs/Stretches.antt). No code. harness/vectors makes the lists and the stretches.
// Uses strip and what it stands on, for their definitions.
#![tactic(auto)]
