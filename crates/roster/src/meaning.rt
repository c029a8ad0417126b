// The meaning of a roster: what its two calls answer and leave.
ghost use Rattle.std.specs.Prelude.{◌≡◌};
ghost use Rattle.roster.specs.Answers.{append_answer, appended_to, read_answer};
ghost use Rattle.roster.specs.Model.{RosterModel, Bounded};

use crate::fault::RosterFault;

// The most entries that any roster holds.
pub const ENTRIES_MAX: usize = 1024;

// A roster (configuration log) of entries of kind `E`: a list that only grows, within a capacity of at most 1,024
// entries, and open or shut. Places count from 1. Only its owner opens or shuts it, by calls of its own type.
// `model` says which list, capacity and state a value stands for; `bounded` shows that every value is within bounds.
pub trait Roster<E> {
    ghost model: { Self → RosterModel E };

    // Puts an entry at the end of the list, if the roster is open (20), `place` is one more than the length (21) and
    // the length is below the capacity (22), asked in this order. A refusal changes nothing.
    fn append(&mut self, place: usize, entry: E) -> Result<(), RosterFault>
        ensures value { result ≡ append_answer (model self.old) place }
        ensures after { model self.new ≡ appended_to result (model self.old) entry };

    // The entry at a place, if the roster is open (20) and `place` is from 1 to the length (23), asked in this order.
    fn read(&self, place: usize) -> Result<E, RosterFault>
        ensures value { result ≡ read_answer (model self.now) place };

    ghost bounded: { (s : Self) → Bounded (model s) };
}
