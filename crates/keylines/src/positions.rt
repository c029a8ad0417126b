// Positions on channels as keys.
ghost use Rattle.std.specs.Prelude.{◌&&◌, ◌||◌, ◌==◌, nat_lt};
ghost use Rattle.std.proofs.Common.{rules};

use crate::kinds::{Key, OrderedKey};

// A position on a channel: the channel's number is compared first, then the position.
#[derive(Clone, Copy, PartialEq, Eq, PartialOrd, Ord, Debug)]
pub struct ChannelPosition {
    pub number: u32,
    pub position: u32,
}

impl Key for ChannelPosition {
    ghost alike = { λ x y. (x.number == y.number) && x.position == y.position };

    ghost exact = { Prim.search rules };

    ghost itself = { Prim.search rules };

    fn same(&self, other: &Self) -> bool {
        self == other
    }
}

impl OrderedKey for ChannelPosition {
    ghost above = { λ x y. nat_lt y.number x.number || (x.number == y.number && nat_lt y.position x.position) };

    ghost total = { Prim.search rules };

    ghost transitive = { Prim.search rules };

    ghost strict = { Prim.search rules };

    fn exceeds(&self, other: &Self) -> bool {
        self > other
    }
}
