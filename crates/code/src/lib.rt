// Stack code: instructions, the compiler as in the source, the code's bytes and reading them back. Definitions in specs/, theorems in proofs/. No function.
#![tactic(auto)]
