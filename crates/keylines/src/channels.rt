// Channels as keys.
ghost use Rattle.std.specs.Prelude.{◌==◌, nat_lt};
ghost use Rattle.std.proofs.Common.{rules};

use crate::kinds::{Key, OrderedKey};

// A channel, by its number.
#[derive(Clone, Copy, PartialEq, Eq, PartialOrd, Ord, Debug)]
pub struct Channel {
    pub number: u32,
}

impl Key for Channel {
    ghost alike = { λ x y. (x.number == y.number) };

    ghost exact = { Prim.search rules };

    ghost itself = { Prim.search rules };

    fn same(&self, other: &Self) -> bool {
        self == other
    }
}

impl OrderedKey for Channel {
    ghost above = { λ x y. nat_lt y.number x.number };

    ghost total = { Prim.search rules };

    ghost transitive = { Prim.search rules };

    ghost strict = { Prim.search rules };

    fn exceeds(&self, other: &Self) -> bool {
        self > other
    }
}
