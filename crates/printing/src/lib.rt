#![tactic(auto)]

// What a listing of the run program tells: theorems. No function.
