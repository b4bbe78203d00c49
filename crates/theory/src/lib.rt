// The theory of safety games under delay: definitions in specs/, theorems in proofs/. It has no function.
#![tactic(auto)]
