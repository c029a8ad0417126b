// What the lines of a script do to a group of pack books, and what is shown of it.
#![tactic(auto)]

mod run;
mod show;

pub use run::{Reply, run_line};
