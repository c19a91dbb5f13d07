// A date's sums and counts, and its row of cells made from them.
#![tactic(auto)]

pub mod sums;
pub mod write;
