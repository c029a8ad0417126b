// The three steps that send or lose a message: Prepare, Propose and Lose.
#![tactic(auto)]

mod sends;

pub use sends::{lose, prepare, propose};
