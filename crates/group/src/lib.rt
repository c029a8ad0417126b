// A group of workers (replicas) that keep copies of one book: making it, its nine steps, and playing any steps.
#![tactic(auto)]

mod making;
mod message_calls;
mod plays;
mod reads;
mod roster_calls;
mod state;

pub use state::Group;
