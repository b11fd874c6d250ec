#![tactic(auto)]

// The machine with logs on threads that carry their code, for any rule for sums and any staleness. Definitions and theorems. No function.
