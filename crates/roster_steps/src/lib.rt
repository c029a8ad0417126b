// The five steps that read or append to the roster: Found, Read, Lead, Carry and Reseat.
#![tactic(auto)]

mod carries;
mod leads;
mod reads;

pub use carries::{carry, reseat};
pub use leads::{found, lead};
pub use reads::read;
