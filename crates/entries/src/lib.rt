// A cell and a reading by value, and a day's entry: the only code that knows how these are encoded.
#![tactic(auto)]

pub mod cell;
pub mod day;
pub mod entry;
pub mod reading;
