// The days beside the cells: a date's entries from its row, and the sums that they change.
#![tactic(auto)]

pub mod keep;
mod put;
mod row;
mod sums;
