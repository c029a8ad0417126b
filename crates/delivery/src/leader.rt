// What a Promise or a Report does to the leading worker that it comes to.
ghost use Rattle.std.specs.Prelude.{◌≡◌, Some};
ghost use Rattle.protocol.specs.declared.message.Message.TheVariants.{Promise, Report};
ghost use Rattle.protocol.specs.Store.{Same, settled, counted_worker, reported_worker, may_deliver, deliver_by};
ghost use Rattle.memory.specs.Views.{store_in, no_roster, HasWorker};

use crate::heading::Heading;
use memory::Memory;
use protocol::{StepFault, Worker};
use tables::bit;

// The record of a leader to which a promised count has come.
fn counted(x: Worker, count: u32) -> Worker
    ensures { result ≡ counted_worker x count }
{
    Worker {
        taken: count == x.reported.count_ones(),
        count: Some(count),
        ..x
    }
}

// The record of a leader to which a Report of line k has come.
fn reported(x: Worker, k: usize) -> Worker
    ensures { result ≡ reported_worker x k }
{
    let lines = x.reported | bit(k);
    Worker {
        taken: x.count == Some(lines.count_ones()),
        reported: lines,
        ..x
    }
}

// A Promise comes to worker w, whose record is x: whether it is addressed to it (5) and timely (10).
pub(crate) fn on_promise<L: Copy>(
    group: &mut Memory<'_, L>,
    x: Worker,
    w: usize,
    heading: Heading,
    count: u32,
) -> Result<(), StepFault>
    requires { HasWorker group.old w }
    ensures value { result ≡ may_deliver (Some (Promise heading.from heading.to heading.epoch heading.claim count)) x w (store_in group.old no_roster) }
    ensures after { Same (store_in group.new no_roster) (settled result (deliver_by (Some (Promise heading.from heading.to heading.epoch heading.claim count)) x w (store_in group.old no_roster)) (store_in group.old no_roster)) }
{
    heading.must_suit_leader(x, w)?;
    group.workers.all[w] = counted(x, count);
    Ok(())
}

// A Report comes to worker w, whose record is x: whether it is addressed to it (5) and timely (10).
pub(crate) fn on_report<L: Copy>(
    group: &mut Memory<'_, L>,
    x: Worker,
    w: usize,
    heading: Heading,
    line: usize,
    value: L,
) -> Result<(), StepFault>
    requires { HasWorker group.old w }
    ensures value { result ≡ may_deliver (Some (Report heading.from heading.to heading.epoch heading.claim line value)) x w (store_in group.old no_roster) }
    ensures after { Same (store_in group.new no_roster) (settled result (deliver_by (Some (Report heading.from heading.to heading.epoch heading.claim line value)) x w (store_in group.old no_roster)) (store_in group.old no_roster)) }
{
    heading.must_suit_leader(x, w)?;
    group.workers.all[w] = reported(x, line);
    group.hand.put(w, line, value);
    Ok(())
}
