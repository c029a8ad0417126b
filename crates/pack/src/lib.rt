// Pack lines, the pack sheet that is worked out from them, and the form in which lines are stored.
#![tactic(auto)]

mod line;
mod sheet;
mod stored;

pub use line::PackLine;
pub use sheet::{PackSheet, RestState};
pub use stored::StoredPackLine;
