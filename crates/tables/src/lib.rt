// Lent tables, sets of lines, and walks over the 64 cells of one worker.
#![tactic(auto)]

mod cells;
mod lent;
mod reports;
mod sets;

pub use lent::{LentList, Table};
pub use reports::send_counted;
pub use sets::{bit, has};
