// A caller of any roster.
ghost use Rattle.std.specs.Prelude.{◌≡◌, IfOk};
ghost use Rattle.roster_tests.specs.Pairs.{pair_answer, pair_after};

use roster::{Entry, Roster, RosterFault};

// Appends two entries, the first at `place` and the second right after it, and reads the first back. It stops at the
// first refusal.
pub fn append_pair<R: Roster<Entry<u32>>>(
    roster: &mut R,
    place: usize,
    first: Entry<u32>,
    second: Entry<u32>,
) -> Result<Entry<u32>, RosterFault>
    ensures value { result ≡ pair_answer (R.model roster.old) place first second }
    ensures after { R.model roster.new ≡ pair_after (R.model roster.old) place first second }
    ensures back { IfOk result (λ e. e ≡ first) }
{
    roster.append(place, first)?;
    roster.append(place + 1, second)?;
    roster.read(place)
}
