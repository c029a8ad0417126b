// The two calls of a roster as steps make them: the roster's fault becomes the step's, unaltered.
ghost use Rattle.std.specs.Prelude.{◌≡◌, ◌≤◌, Ok, OnOk};
ghost use Rattle.roster.specs.Answers.{append_answer, appended_to, read_answer};
ghost use Rattle.roster.specs.Limits.{entries_max};
ghost use Rattle.protocol.specs.Store.{raised, settled};

use protocol::StepFault;
use roster::Roster;

// Appends an entry at a place.
pub fn enter<E, R: Roster<E>>(roster: &mut R, place: usize, item: E) -> Result<(), StepFault>
    ensures value { result ≡ raised (append_answer (R.model roster.old) place) }
    ensures after { R.model roster.new ≡ settled result (appended_to (Ok tt) (R.model roster.old) item) (R.model roster.old) }
    ensures within { OnOk result (place ≤ entries_max) }
{
    Ok(roster.append(place, item)?)
}

// Reads the entry at a place.
pub fn fetch<E, R: Roster<E>>(roster: &R, place: usize) -> Result<E, StepFault>
    ensures value { result ≡ raised (read_answer (R.model roster.now) place) }
    ensures within { OnOk result (place ≤ entries_max) }
{
    Ok(roster.read(place)?)
}
