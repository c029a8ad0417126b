// The roster (configuration log): its entries, its faults, its meaning, the plain roster, and sequences of calls.
#![tactic(auto)]

mod entry;
mod fault;
mod meaning;
mod plain;
mod runs;

pub use entry::Entry;
pub use fault::RosterFault;
pub use meaning::Roster;
pub use plain::PlainRoster;
pub use runs::{Call, play};
