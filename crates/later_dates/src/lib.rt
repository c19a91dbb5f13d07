// The walk over the dates after a run: each run one of its day type follows, up to one where nothing moves.
#![tactic(auto)]

pub mod count;
pub mod predecessor;
pub mod row;
mod walk;
pub mod write;
