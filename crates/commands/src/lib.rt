// What each command asks of the engine, prints and leaves.
#![tactic(auto)]

mod calls;
mod capacity;

pub use calls::{ask, open};
pub use capacity::Capacity;
