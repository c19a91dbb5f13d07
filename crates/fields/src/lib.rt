// An answer as numbers, for callers in C.
#![tactic(auto)]

pub mod numbers;
