#![tactic(auto)]

// What is promised of the whole: the theorems over all layers. No function.
