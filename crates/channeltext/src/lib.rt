// Requests to a key sheet as text: reading them, answering them, and showing the answers.
#![tactic(auto)]

mod read;
mod sheet;
mod show;

pub use read::{Request, read_places, read_request};
pub use sheet::{ChannelSheet, apply_text, summary};
pub use show::ChannelAnswer;
