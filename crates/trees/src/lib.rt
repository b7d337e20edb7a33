// Theory of ordered forests, their tours and their labels: definitions in specs/, laws in proofs/. No functions.
#![tactic(auto)]
