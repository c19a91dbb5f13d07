// The lower layer: number checks, calendar, averaging and ranges. It knows nothing of the store.
#![tactic(auto)]

pub mod average;
pub mod calendar;
pub mod mpan;
pub mod range;
