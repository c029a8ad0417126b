// The key table over a lent slice, and the key sheet that applies channel lines to one.
#![tactic(auto)]

mod places;
mod sheet;
mod table;

pub use sheet::KeySheet;
pub use table::KeyTable;
