// A pack line as whole numbers, as it lies in cells, messages and roster tables.
ghost use Rattle.std.specs.Prelude.{◌≡◌, T};
ghost use Rattle.pack.specs.Stored.{IsStoredForm, IsRestoredLine};

use crate::line::PackLine;
use std::num::{f64_from_bits_with_nan, f64_to_bits_with_nan};

// A pack line whose charge or current is kept by its binary64 bits; in their place stands
// 0x7ff8_0000_0000_0000 for every float that is not a number.
#[derive(Clone, Copy, PartialEq, Eq, Debug)]
pub enum StoredPackLine {
    // the bits of the charge
    Begin(u64),
    // the bits of the current, and the seconds
    Drain(u64, u32),
    // the seconds
    Idle(u32),
}

impl StoredPackLine {
    // Whether both are the same line: yes exactly when all their numbers are equal.
    pub fn is_same(&self, other: &StoredPackLine) -> bool
        ensures equal { T result → self.now ≡ other.now }
        ensures all { self.now ≡ other.now → T result }
    {
        self == other
    }
}

impl From<PackLine> for StoredPackLine {
    ghost from_gives = { IsStoredForm };

    // The line as whole numbers.
    #[tactic(auto, using(crate::proofs::Bits::float_back))]
    fn from(line: PackLine) -> Self {
        match line {
            PackLine::Begin(charge) => Self::Begin(f64_to_bits_with_nan(charge)),
            PackLine::Drain(current, seconds) => Self::Drain(
                f64_to_bits_with_nan(current),
                seconds,
            ),
            PackLine::Idle(seconds) => Self::Idle(seconds),
        }
    }
}

impl From<StoredPackLine> for PackLine {
    ghost from_gives = { IsRestoredLine };

    // The line of these numbers.
    #[tactic(auto, using(crate::proofs::Bits::bits_back))]
    fn from(stored: StoredPackLine) -> Self {
        match stored {
            StoredPackLine::Begin(bits) => Self::Begin(f64_from_bits_with_nan(bits)),
            StoredPackLine::Drain(bits, seconds) => Self::Drain(
                f64_from_bits_with_nan(bits),
                seconds,
            ),
            StoredPackLine::Idle(seconds) => Self::Idle(seconds),
        }
    }
}
