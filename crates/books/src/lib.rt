// Sheets worked out from the lines (log entries) that a worker (replica) of a group has learned.
#![tactic(auto)]

mod ask;
mod channels;
mod fault;
mod held;
mod packs;

pub use channels::key_sheet;
pub use fault::SheetFault;
pub use held::held_to;
pub use packs::pack_sheet;
