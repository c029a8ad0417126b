// The lines of a script: commands to a group of pack books, read from text.
#![tactic(auto)]

mod command;
mod read;

pub use command::Command;
pub use read::{read_command, read_setup};
