// The commands as bytes: where one ends, and its operands.
#![tactic(auto)]

pub mod extent;
pub mod operands;
