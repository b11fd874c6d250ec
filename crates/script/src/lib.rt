// Scripts, their bytes and their meaning: definitions in specs/, theorems in proofs/. No function.
#![tactic(auto)]
