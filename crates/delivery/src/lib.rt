// The step that delivers a message, by the kind of message.
#![tactic(auto)]

mod acceptor;
mod delivers;
mod heading;
mod leader;

pub use delivers::deliver;
