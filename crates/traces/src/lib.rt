#![tactic(auto)]

// What every finished run of a job shows: no functions, definitions and theorems only.
