// Delivering a message.
ghost use Rattle.std.specs.Prelude.{◌≡◌, Some};
ghost use Rattle.protocol.specs.Store.{Same, settled, may_deliver, deliver_by, deliver_result, deliver_done};
ghost use Rattle.memory.specs.Views.{store_in, no_roster, HasWorker};

use crate::acceptor::{on_prepare, on_proposal};
use crate::heading::Heading;
use crate::leader::{on_promise, on_report};
use memory::{Memory, must};
use protocol::{Message, StepFault, Worker};

// A message comes to worker w, whose record is x.
fn on_message<L: Copy>(
    group: &mut Memory<'_, L>,
    x: Worker,
    w: usize,
    message: &Message<L>,
) -> Result<(), StepFault>
    requires { HasWorker group.old w }
    ensures value { result ≡ may_deliver (Some message.now) x w (store_in group.old no_roster) }
    ensures after { Same (store_in group.new no_roster) (settled result (deliver_by (Some message.now) x w (store_in group.old no_roster)) (store_in group.old no_roster)) }
{
    let heading = Heading::from(message);
    match *message {
        Message::Prepare { .. } => on_prepare(group, x, w, heading),
        Message::Proposal { line, value, .. } => on_proposal(group, x, w, heading, line, value),
        Message::Promise { count, .. } => on_promise(group, x, w, heading, count),
        Message::Report { line, value, .. } => on_report(group, x, w, heading, line, value),
        Message::Learn { line, value, .. } => {
            group.learned.fill(w, line, value);
            Ok(())
        }
    }
}

// Message m is delivered to worker w, and kept.
pub fn deliver<L: Copy>(group: &mut Memory<'_, L>, m: usize, w: usize) -> Result<(), StepFault>
    ensures value { result ≡ deliver_result m w (store_in group.old no_roster) }
    ensures after { Same (store_in group.new no_roster) (settled result (deliver_done m w (store_in group.old no_roster)) (store_in group.old no_roster)) }
{
    let x = group.worker(w)?;
    must(m < group.messages.len(), StepFault::NoMessage)?;
    let message = group.messages.get(m);
    on_message(group, x, w, &message)
}
