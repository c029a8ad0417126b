// Carrying lines over into the roster, and moving the seat.
ghost use Rattle.std.specs.Prelude.{◌≡◌, ◌≤◌, IfOk, Some, OnOk};
ghost use Rattle.protocol.specs.Limits.{lines};
ghost use Rattle.protocol.specs.Store.{Same, settled, may_carry, may_reseat, unmarked, cell_at, carry_result, carry_done, reseat_result, reseat_done};
ghost use Rattle.memory.specs.Views.{store_in};
ghost use Rattle.tables.specs.Views.{table_of, HasRow};

use memory::{Memory, enter, must, must_be_line, must_lead};
use protocol::{StepFault, Worker};
use roster::{Entry, Roster};
use tables::{Table, bit, has};

// To a Carry: a line number (3), and a claim (6) that is taken up (7).
fn may_carry(x: Worker, k: usize) -> Result<(), StepFault>
    ensures value { result ≡ may_carry x k }
    ensures line { OnOk result ((1 ≤ k) × (k ≤ lines)) }
{
    must_be_line(k)?;
    must_lead(x)
}

// The line of worker w's cell for line k, which is not marked as carried (9).
fn unmarked<L: Copy>(
    cells: &Table<'_, Option<L>>,
    x: Worker,
    w: usize,
    k: usize,
) -> Result<L, StepFault>
    requires table { HasRow cells.now w }
    requires line { (1 ≤ k) × (k ≤ lines) }
    ensures value { result ≡ unmarked x k (cell_at (table_of cells.now) w k) }
    ensures line { IfOk result (λ l. cell_at (table_of cells.now) w k ≡ Some l) }
{
    let line = cells.cell(w, k).ok_or(StepFault::WrongLine)?;
    must(!has(x.carried, k), StepFault::WrongLine)?;
    Ok(line)
}

// Worker w carries its line k over into the roster.
pub fn carry<L: Copy, R: Roster<Entry<L>>>(
    group: &mut Memory<'_, L>,
    roster: &mut R,
    w: usize,
    k: usize,
) -> Result<(), StepFault>
    ensures value { result ≡ carry_result w k (store_in group.old (R.model roster.old)) }
    ensures after { Same (store_in group.new (R.model roster.new)) (settled result (carry_done w k (store_in group.old (R.model roster.old))) (store_in group.old (R.model roster.old))) }
{
    let x = group.worker(w)?;
    may_carry(x, k)?;
    let line = unmarked(&group.hand, x, w, k)?;
    enter(roster, x.next_place(), Entry::Carry(k, line))?;
    group.workers.all[w] = Worker {
        mark: x.mark + 1,
        carried: x.carried | bit(k),
        ..x
    };
    Ok(())
}

// To a Reseat of worker w to b, of n workers: there is a worker b (2), a claim (6) that is taken up (7), b is another
// than w and its seat (8), and every line in hand is marked (9).
fn may_reseat(x: Worker, w: usize, b: usize, n: usize, marks: bool) -> Result<(), StepFault>
    ensures { result ≡ may_reseat x w b n marks }
{
    must(b < n, StepFault::NoWorker)?;
    must_lead(x)?;
    must(b != w && b != x.seat, StepFault::WrongSeat)?;
    must(marks, StepFault::WrongLine)
}

// Worker w moves the seat (active acceptor) to worker b.
pub fn reseat<L: Copy, R: Roster<Entry<L>>>(
    group: &mut Memory<'_, L>,
    roster: &mut R,
    w: usize,
    b: usize,
) -> Result<(), StepFault>
    ensures value { result ≡ reseat_result w b (store_in group.old (R.model roster.old)) }
    ensures after { Same (store_in group.new (R.model roster.new)) (settled result (reseat_done w b (store_in group.old (R.model roster.old))) (store_in group.old (R.model roster.old))) }
{
    let x = group.worker(w)?;
    let marks = group.hand.all_in(w, x.carried);
    may_reseat(x, w, b, group.workers.all.len(), marks)?;
    enter(roster, x.next_place(), Entry::Seat(b))?;
    let place = x.mark + 1;
    group.workers.all[w] = Worker {
        mark: place,
        epoch: place,
        seat: b,
        ..x
    };
    Ok(())
}
