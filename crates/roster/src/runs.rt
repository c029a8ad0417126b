// Sequences of calls on any roster, and what stays true under them.
ghost use Rattle.std.specs.Prelude.{◌≡◌};
ghost use Rattle.roster.specs.Runs.{after_call, after_calls, Grown, EntriesStay};

use crate::meaning::Roster;

// One of the two calls on a roster of entries of kind `E`.
#[derive(Clone, Copy)]
pub enum Call<E> {
    // An append of an entry at a place, counted from 1.
    Append(usize, E),
    // A read of a place, counted from 1.
    Read(usize),
}

// Makes one call; its answer is let go.
fn make_call<E: Copy, R: Roster<E>>(roster: &mut R, call: &Call<E>)
    ensures { R.model roster.new ≡ after_call call.now (R.model roster.old) }
{
    match *call {
        Call::Append(place, item) => {
            let _ = roster.append(place, item);
        }
        Call::Read(place) => {
            let _ = roster.read(place);
        }
    }
}

// Makes the calls one after the other; refused ones change nothing. Entries that stand in the roster stay at their
// places, and the list stays within its capacity.
pub fn play<E: Copy, R: Roster<E>>(roster: &mut R, calls: &[Call<E>])
    ensures after { R.model roster.new ≡ after_calls calls.now (R.model roster.old) }
    ensures grown { Grown (R.model roster.old) (R.model roster.new) }
    ensures law { EntriesStay E }
{
    for call in calls {
        make_call(roster, call);
    }
}
