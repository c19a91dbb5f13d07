// The settings part: its header with the windows, the category records and the day types, and the lengths that they ask of every part.
#![tactic(auto)]

pub mod access;
pub mod category;
pub mod header;
pub mod members;
pub mod opened;
pub mod ready;
pub mod sizes;
pub mod writing;
