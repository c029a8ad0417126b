// A group's lent memory: making it, what steps ask of it, and the calls of a roster as steps make them.
#![tactic(auto)]

mod links;
mod making;
mod questions;
mod sizes;
mod state;

pub use links::{enter, fetch};
pub use questions::{must, must_be_line, must_lead};
pub use state::Memory;
