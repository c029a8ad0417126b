// Pack lines as text: reading them, working on a sheet by them, and showing what was done.
#![tactic(auto)]

mod read;
mod show;

pub use read::{pack_line, take_pack_line};
pub use show::{Answer, Figures, apply_text, summary};
