// Sets of lines as 64-bit numbers: line k is bit k - 1.
ghost use Rattle.std.specs.Prelude.{◌≡◌};
ghost use Rattle.protocol.specs.Lines.{bit_of, marked};

use protocol::LINES;

// The set of line k alone; empty for a number that no line has.
pub fn bit(k: usize) -> u64
    ensures { result ≡ bit_of k }
{
    if (1..=LINES).contains(&k) {
        1 << (k - 1)
    } else {
        0
    }
}

// Whether a set has line k.
pub fn has(lines: u64, k: usize) -> bool
    ensures { result ≡ marked lines k }
{
    lines & bit(k) > 0
}
