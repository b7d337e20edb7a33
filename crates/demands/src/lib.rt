// The demands as theorems, and the paper's worked examples: see proofs/. No functions.
#![tactic(auto)]
