// The answers as text.
#![tactic(auto)]

pub mod append;
pub mod line;
pub mod lines;
#[cfg(test)]
mod tests;
