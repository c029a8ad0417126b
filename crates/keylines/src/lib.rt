// Kinds of key, channel lines, and what lines do to the pairs of a table.
#![tactic(auto)]

mod channels;
mod kinds;
mod lines;
mod positions;

pub use channels::Channel;
pub use kinds::{Key, OrderedKey};
pub use lines::{ChannelLine, Pair};
pub use positions::ChannelPosition;
