// Asking for a promise, proposing a line, and losing a message.
ghost use Rattle.std.specs.Prelude.{◌≡◌, ◌≤◌, Some, OnOk, slice_set};
ghost use Rattle.protocol.specs.Limits.{lines};
ghost use Rattle.protocol.specs.Lines.{cell_of};
ghost use Rattle.protocol.specs.Store.{Same, settled, may_prepare, may_propose, cell_at, sent_as, line_sent, prepare_result, prepare_done, propose_result, propose_done, lose_result, lose_done};
ghost use Rattle.memory.specs.Views.{store_in, no_roster};
ghost use Rattle.tables.specs.Views.{table_of, HasRow};

use memory::{Memory, must, must_be_line, must_lead};
use protocol::{Answer, Message, StepFault, Worker};
use tables::Table;

// To a Prepare: the worker has a claim (6), and there is room for a message (11).
fn may_prepare(x: Worker, room: bool) -> Result<(), StepFault>
    ensures { result ≡ may_prepare x room }
{
    must(x.claim > 0, StepFault::NotReady)?;
    must(room, StepFault::NoRoom)
}

// Worker w asks its seat for a promise.
pub fn prepare<L: Copy>(group: &mut Memory<'_, L>, w: usize) -> Result<(), StepFault>
    ensures value { result ≡ prepare_result w (store_in group.old no_roster) }
    ensures after { Same (store_in group.new no_roster) (settled result (prepare_done w (store_in group.old no_roster)) (store_in group.old no_roster)) }
{
    let x = group.worker(w)?;
    may_prepare(x, group.messages.has_room())?;
    group.messages.push(Message::Prepare {
        from: w,
        to: x.seat,
        epoch: x.epoch,
        claim: x.claim,
    });
    Ok(())
}

// Takes the line of worker w's cell for line k, or puts the given line there.
fn hold<L: Copy>(cells: &mut Table<'_, Option<L>>, w: usize, k: usize, given: L) -> (Answer, L)
    requires table { HasRow cells.old w }
    requires line { (1 ≤ k) × (k ≤ lines) }
    ensures how { result.0 ≡ sent_as (cell_at (table_of cells.old) w k) }
    ensures line { result.1 ≡ line_sent (cell_at (table_of cells.old) w k) given }
    ensures cells { table_of cells.new ≡ slice_set (table_of cells.old) (cell_of w k) (Some (line_sent (cell_at (table_of cells.old) w k) given)) }
{
    match cells.cell(w, k) {
        Some(line) => (Answer::Held, line),
        None => {
            cells.put(w, k, given);
            (Answer::Done, given)
        }
    }
}

// To a Propose: a line number (3), a claim (6) that is taken up (7), and room for a message (11).
fn may_propose(x: Worker, k: usize, room: bool) -> Result<(), StepFault>
    ensures value { result ≡ may_propose x k room }
    ensures line { OnOk result ((1 ≤ k) × (k ≤ lines)) }
{
    must_be_line(k)?;
    must_lead(x)?;
    must(room, StepFault::NoRoom)
}

// Worker w proposes a line for line k, or the one that it has in hand.
pub fn propose<L: Copy>(
    group: &mut Memory<'_, L>,
    w: usize,
    k: usize,
    given: L,
) -> Result<Answer, StepFault>
    ensures value { result ≡ propose_result w k (store_in group.old no_roster) }
    ensures after { Same (store_in group.new no_roster) (settled result (propose_done w k given (store_in group.old no_roster)) (store_in group.old no_roster)) }
{
    let x = group.worker(w)?;
    may_propose(x, k, group.messages.has_room())?;
    let (how, value) = hold(&mut group.hand, w, k, given);
    group.messages.push(Message::Proposal {
        from: w,
        to: x.seat,
        epoch: x.epoch,
        claim: x.claim,
        line: k,
        value,
    });
    Ok(how)
}

// Message m is lost, and the last message takes its number.
pub fn lose<L: Copy>(group: &mut Memory<'_, L>, m: usize) -> Result<(), StepFault>
    ensures value { result ≡ lose_result m (store_in group.old no_roster) }
    ensures after { Same (store_in group.new no_roster) (settled result (lose_done m (store_in group.old no_roster)) (store_in group.old no_roster)) }
{
    must(group.is_made(), StepFault::Unmade)?;
    must(m < group.messages.len(), StepFault::NoMessage)?;
    group.messages.lose(m);
    Ok(())
}
