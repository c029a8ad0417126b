// What a Prepare or a Proposal does to the acceptor that it comes to.
ghost use Rattle.std.specs.Prelude.{◌≡◌, length, Some};
ghost use Rattle.protocol.specs.declared.message.Message.TheVariants.{Prepare, Proposal};
ghost use Rattle.protocol.specs.Limits.{lines};
ghost use Rattle.protocol.specs.Store.{Same, settled, lines_in, seated_cells, seated_worker, may_deliver, deliver_by};
ghost use Rattle.memory.specs.Views.{store_in, no_roster, HasWorker};
ghost use Rattle.tables.specs.Views.{table_of, HasRow};

use crate::heading::Heading;
use memory::{Memory, must};
use protocol::{Message, StepFault, Worker};
use tables::{Table, send_counted};

// How many lines an acceptor has accepted, once it sits under the entry at `epoch`.
fn seated_count<L: Copy>(cells: &Table<'_, Option<L>>, x: Worker, epoch: u32, w: usize) -> u32
    requires { HasRow cells.now w }
    ensures { result ≡ lines_in w lines (seated_cells x epoch w (table_of cells.now)) }
{
    if x.sits < epoch {
        return 0;
    }
    cells.count(w)
}

// Empties the accepted cells of an acceptor that comes to sit under a later entry.
fn seat_cells<L: Copy>(cells: &mut Table<'_, Option<L>>, x: Worker, epoch: u32, w: usize)
    requires { HasRow cells.old w }
    ensures cells { table_of cells.new ≡ seated_cells x epoch w (table_of cells.old) }
    ensures places { length (table_of cells.new) ≡ length (table_of cells.old) }
{
    if x.sits < epoch {
        cells.clear(w, 0);
    }
}

// The record of an acceptor to which a Prepare or a Proposal has come.
fn seated(x: Worker, epoch: u32, claim: u32) -> Worker
    ensures { result ≡ seated_worker x epoch claim }
{
    Worker {
        sits: epoch,
        promise: claim,
        ..x
    }
}

// A Prepare comes to worker w, whose record is x: whether it is addressed to it (5) and timely (10), and there is room
// for the answer (11).
pub(crate) fn on_prepare<L: Copy>(
    group: &mut Memory<'_, L>,
    x: Worker,
    w: usize,
    heading: Heading,
) -> Result<(), StepFault>
    requires { HasWorker group.old w }
    ensures value { result ≡ may_deliver (Some (Prepare heading.from heading.to heading.epoch heading.claim)) x w (store_in group.old no_roster) }
    ensures after { Same (store_in group.new no_roster) (settled result (deliver_by (Some (Prepare heading.from heading.to heading.epoch heading.claim)) x w (store_in group.old no_roster)) (store_in group.old no_roster)) }
{
    heading.must_suit_acceptor(x, w)?;
    let lines = seated_count(&group.accepted, x, heading.epoch, w);
    let room = group.messages.len() + (lines as usize) < group.messages.places();
    must(room, StepFault::NoRoom)?;
    seat_cells(&mut group.accepted, x, heading.epoch, w);
    group.workers.all[w] = seated(x, heading.epoch, heading.claim);
    group.messages.push(Message::Promise {
        from: w,
        to: heading.from,
        epoch: heading.epoch,
        claim: heading.claim,
        count: lines,
    });
    send_counted(
        &mut group.messages,
        &group.accepted,
        w,
        heading.from,
        heading.epoch,
        heading.claim,
        lines,
    );
    Ok(())
}

// A Proposal comes to worker w, whose record is x: whether it is addressed to it (5) and timely (10), and there is room
// for a Learn (11).
pub(crate) fn on_proposal<L: Copy>(
    group: &mut Memory<'_, L>,
    x: Worker,
    w: usize,
    heading: Heading,
    line: usize,
    value: L,
) -> Result<(), StepFault>
    requires { HasWorker group.old w }
    ensures value { result ≡ may_deliver (Some (Proposal heading.from heading.to heading.epoch heading.claim line value)) x w (store_in group.old no_roster) }
    ensures after { Same (store_in group.new no_roster) (settled result (deliver_by (Some (Proposal heading.from heading.to heading.epoch heading.claim line value)) x w (store_in group.old no_roster)) (store_in group.old no_roster)) }
{
    heading.must_suit_acceptor(x, w)?;
    must(group.messages.has_room(), StepFault::NoRoom)?;
    seat_cells(&mut group.accepted, x, heading.epoch, w);
    group.accepted.put(w, line, value);
    group.workers.all[w] = seated(x, heading.epoch, heading.claim);
    group.messages.push(Message::Learn {
        from: w,
        line,
        value,
    });
    Ok(())
}
