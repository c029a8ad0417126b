// The plain roster: a roster in one lent table.
ghost use Rattle.std.specs.Prelude.{◌≡◌, ◌≤◌, length};
ghost use Rattle.roster.specs.Answers.{append_answer, appended_to};
ghost use Rattle.roster.specs.Limits.{entries_max};

use crate::fault::RosterFault;
use crate::meaning::{ENTRIES_MAX, Roster};

// A roster in one lent table, always open. Its list is the first `len` places of the table, of which it uses 1,024 at
// most. Its memory is its caller's, so it is a slice with a length beside it and no vector.
#[derive(Drop)]
pub struct PlainRoster<'a, E> {
    table: &'a mut [E],
    len: usize,
    ghost fits: { len ≤ length table.now },
    ghost small: { len ≤ entries_max },
}

impl<'a, E: Copy> PlainRoster<'a, E> {
    ghost use Rattle.roster.specs.Views.{empty_in, plain_model};

    // An empty roster in a table; its capacity is the table's length, and 1,024 at most.
    pub fn new(table: &'a mut [E]) -> PlainRoster<'a, E>
        ensures value { plain_model result ≡ empty_in table.old }
        ensures same { result.table.now ≡ table.old }
        ensures named { result.table.ghost_name ≡ table.entry.ghost_name }
    {
        PlainRoster { table, len: 0 }
    }
}

impl<E: Copy> Roster<E> for PlainRoster<'_, E> {
    ghost use Rattle.roster.specs.Views.{plain_model, table_of, table_after, beyond};
    ghost use Rattle.roster.specs.Bounds.{plain_bounded};

    ghost model = { plain_model };

    fn append(&mut self, place: usize, entry: E) -> Result<(), RosterFault>
        ensures value { result ≡ append_answer (plain_model self.old) place }
        ensures after { plain_model self.new ≡ appended_to result (plain_model self.old) entry }
        ensures table { table_of self.new ≡ table_after result self.old entry }
        ensures rest { beyond self.new ≡ beyond self.old }
        ensures named { self.new.table.ghost_name ≡ self.old.table.ghost_name }
    {
        if place != self.len + 1 {
            return Err(RosterFault::NotNext);
        }
        if self.len >= self.table.len().min(ENTRIES_MAX) {
            return Err(RosterFault::Full);
        }
        self.table[self.len] = entry;
        self.len += 1;
        Ok(())
    }

    fn read(&self, place: usize) -> Result<E, RosterFault> {
        let i = place.checked_sub(1).ok_or(RosterFault::NoEntry)?;
        self.table[..self.len]
            .get(i)
            .copied()
            .ok_or(RosterFault::NoEntry)
    }

    ghost bounded = { plain_bounded };
}
