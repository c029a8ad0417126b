// Memory for a group, kept by its owner and lent to one group at a time.
#![tactic(auto)]

mod storage;

pub use storage::Storage;
