// Theory of digit lists and codes: definitions in specs/, laws in proofs/. No functions.
#![tactic(auto)]
