#![tactic(auto)]

// No functions: the source's machine, and the agreement of picks with it.
