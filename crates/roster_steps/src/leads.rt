// Founding a book, and making a claim.
ghost use Rattle.std.specs.Prelude.{◌≡◌};
ghost use Rattle.protocol.specs.Store.{Same, settled, may_lead, found_result, found_done, lead_result, lead_done};
ghost use Rattle.memory.specs.Views.{store_in};

use memory::{Memory, enter, must};
use protocol::{StepFault, Worker};
use roster::{Entry, Roster};

// The seat (active acceptor) goes to worker a, as the roster's first entry.
pub fn found<L: Copy, R: Roster<Entry<L>>>(
    group: &mut Memory<'_, L>,
    roster: &mut R,
    a: usize,
) -> Result<(), StepFault>
    ensures value { result ≡ found_result a (store_in group.old (R.model roster.old)) }
    ensures after { Same (store_in group.new (R.model roster.new)) (settled result (found_done a (store_in group.old (R.model roster.old))) (store_in group.old (R.model roster.old))) }
{
    group.worker(a)?;
    enter(roster, 1, Entry::Seat(a))
}

// To a Lead: the worker has read a Seat entry (6), and is not the seat (8).
fn may_lead(x: Worker, w: usize) -> Result<(), StepFault>
    ensures { result ≡ may_lead x w }
{
    must(x.epoch > 0, StepFault::NotReady)?;
    must(w != x.seat, StepFault::WrongSeat)
}

// Worker w makes a claim (proposal number): the place of its Lead entry.
pub fn lead<L: Copy, R: Roster<Entry<L>>>(
    group: &mut Memory<'_, L>,
    roster: &mut R,
    w: usize,
) -> Result<(), StepFault>
    ensures value { result ≡ lead_result w (store_in group.old (R.model roster.old)) }
    ensures after { Same (store_in group.new (R.model roster.new)) (settled result (lead_done w (store_in group.old (R.model roster.old))) (store_in group.old (R.model roster.old))) }
{
    let x = group.worker(w)?;
    may_lead(x, w)?;
    enter(roster, x.next_place(), Entry::Lead(w))?;
    let place = x.mark + 1;
    group.workers.all[w] = Worker {
        mark: place,
        claim: place,
        taken: false,
        count: None,
        reported: 0,
        ..x
    };
    group.hand.clear(w, x.carried);
    Ok(())
}
