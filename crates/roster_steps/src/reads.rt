// Reading the roster's next entry.
ghost use Rattle.std.specs.Prelude.{◌≡◌, ◌<◌};
ghost use Rattle.roster.specs.Limits.{entries_max};
ghost use Rattle.protocol.specs.Store.{Same, settled, read_worker, carried_in, read_result, read_done};
ghost use Rattle.memory.specs.Views.{store_in};
ghost use Rattle.tables.specs.Views.{table_of, HasRow};

use memory::{Memory, fetch};
use protocol::{StepFault, Worker};
use roster::{Entry, Roster};
use tables::{Table, bit};

// The record after a read of an entry.
fn noted<L: Copy>(x: Worker, e: &Entry<L>) -> Worker
    requires { x.mark < entries_max }
    ensures { result ≡ read_worker e.now x }
{
    let mark = x.mark + 1;
    match *e {
        Entry::Lead(_) => Worker {
            mark,
            claim: 0,
            taken: false,
            ..x
        },
        Entry::Seat(a) => Worker {
            mark,
            epoch: mark,
            seat: a,
            ..x
        },
        Entry::Carry(k, _) => Worker {
            mark,
            carried: x.carried | bit(k),
            ..x
        },
    }
}

// Puts the line of a Carry into worker w's cells.
fn carry_in<L: Copy>(cells: &mut Table<'_, Option<L>>, w: usize, e: &Entry<L>)
    requires { HasRow cells.old w }
    ensures { table_of cells.new ≡ carried_in e.now w (table_of cells.old) }
{
    match *e {
        Entry::Carry(k, line) => cells.put(w, k, line),
        Entry::Lead(_) | Entry::Seat(_) => {}
    }
}

// Worker w takes the entry after those that it has read.
pub fn read<L: Copy, R: Roster<Entry<L>>>(
    group: &mut Memory<'_, L>,
    roster: &mut R,
    w: usize,
) -> Result<(), StepFault>
    ensures value { result ≡ read_result w (store_in group.old (R.model roster.old)) }
    ensures after { Same (store_in group.new (R.model roster.new)) (settled result (read_done w (store_in group.old (R.model roster.old))) (store_in group.old (R.model roster.old))) }
{
    let x = group.worker(w)?;
    let entry = fetch(roster, x.next_place())?;
    group.workers.all[w] = noted(x, &entry);
    carry_in(&mut group.hand, w, &entry);
    Ok(())
}
