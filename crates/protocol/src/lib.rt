// What a group of workers holds, what its nine steps do, and what holds in every run.
#![tactic(auto)]

mod fault;
mod limits;
mod message;
mod promises;
mod step;
mod worker;

pub use fault::{Fault, Layer, Refusal, StepFault, told};
pub use limits::{LINES, MESSAGES_MAX, MESSAGES_MIN, WORKERS_MAX, WORKERS_MIN};
pub use message::Message;
pub use promises::{agreement, equal_sheets, origin, permanence, progress, refusals};
pub use step::{Answer, Step};
pub use worker::Worker;
