// A caller that lends its table to a plain roster and gets it back.
ghost use Rattle.std.specs.Prelude.{◌≡◌, drop};
ghost use Rattle.roster.specs.Answers.{append_answer, appended_to};
ghost use Rattle.roster.specs.Runs.{BeginsWith};
ghost use Rattle.roster.specs.Views.{capacity_in, empty_in};

use roster::{Entry, PlainRoster, Roster, RosterFault};

// Appends an entry at a place of an empty plain roster in the table, and gives the table back: it begins with
// the roster's entries, and what lies past the roster's capacity is as it was.
pub fn append_first(
    table: &mut [Entry<u32>],
    place: usize,
    entry: Entry<u32>,
) -> Result<(), RosterFault>
    ensures value { result ≡ append_answer (empty_in table.old) place }
    ensures begins { BeginsWith table.new (appended_to result (empty_in table.old) entry).entries }
    ensures rest { drop (capacity_in table.old) table.new ≡ drop (capacity_in table.old) table.old }
{
    let mut roster = PlainRoster::new(table);
    roster.append(place, entry)
}
