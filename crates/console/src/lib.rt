// The command program's work: commands in from standard input, answers out to standard output.
#![tactic(auto)]

mod blocks;
mod dialogue;
mod failure;
mod transfer;

pub use dialogue::converse;
