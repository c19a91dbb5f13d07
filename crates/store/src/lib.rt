// The lent parts beside the settings: where each thing stands in meters, readings, cells and days; and what each call answers.
#![tactic(auto)]

pub mod access;
pub mod column;
pub mod day_rows;
pub mod lent;
pub mod meter_call;
pub mod meters;
pub mod outcome;
pub mod readings;
pub mod refusal;
pub mod rows;
pub mod run_mark;
pub mod writing;
