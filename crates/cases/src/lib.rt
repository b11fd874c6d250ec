#![tactic(auto)]

// The joint table of worked cases. No function.
