// What a dialogue holds between two commands, and the commands at hand obeyed one after the other.
#![tactic(auto)]

mod block;
mod command;
mod held;

pub use block::{is_going, obey_all, say_bad, with_stage};
pub use held::{Lent, Session, Stage};
