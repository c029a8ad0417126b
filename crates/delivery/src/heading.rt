// What every message but a Learn says of itself, and whether it is for the worker that it comes to.
ghost use Rattle.std.specs.Prelude.{◌≡◌, ◌==◌};
ghost use Rattle.protocol.specs.declared.fault.StepFault.TheVariants.{NotAddressed, Late};
ghost use Rattle.protocol.specs.Store.{after, must, timely_at, timely_to};

use memory::must;
use protocol::{Message, StepFault, Worker};

// The sender, the receiver, the place of the Seat entry, and the claim of a message.
#[derive(Clone, Copy)]
pub(crate) struct Heading {
    pub from: usize,
    pub to: usize,
    pub epoch: u32,
    pub claim: u32,
}

impl<L: Copy> From<&Message<L>> for Heading {
    ghost use Rattle.delivery.specs.Headings.{heading_of};

    ghost from_gives = { λ m h. h ≡ heading_of m.now };

    // A Learn, which is for anyone, has no more than its sender.
    fn from(message: &Message<L>) -> Heading {
        let (from, to, epoch, claim) = match *message {
            Message::Prepare {
                from,
                to,
                epoch,
                claim,
            }
            | Message::Proposal {
                from,
                to,
                epoch,
                claim,
                ..
            }
            | Message::Promise {
                from,
                to,
                epoch,
                claim,
                ..
            }
            | Message::Report {
                from,
                to,
                epoch,
                claim,
                ..
            } => (from, to, epoch, claim),
            Message::Learn { from, .. } => (from, 0, 0, 0),
        };
        Heading {
            from,
            to,
            epoch,
            claim,
        }
    }
}

impl Heading {
    // Whether a Prepare or a Proposal is addressed to worker w (5), whose record is x, and timely for it as acceptor (10).
    pub(crate) fn must_suit_acceptor(self, x: Worker, w: usize) -> Result<(), StepFault>
        ensures { result ≡ after (must (self.to == w) NotAddressed) (λ _. must (timely_at x self.epoch self.claim) Late) }
    {
        must(self.to == w, StepFault::NotAddressed)?;
        let early = self.epoch < x.sits || self.epoch == x.sits && self.claim < x.promise;
        must(!early, StepFault::Late)
    }

    // Whether a Promise or a Report is addressed to worker w (5), whose record is x, and timely for it as leader (10).
    pub(crate) fn must_suit_leader(self, x: Worker, w: usize) -> Result<(), StepFault>
        ensures { result ≡ after (must (self.to == w) NotAddressed) (λ _. must (timely_to x self.epoch self.claim) Late) }
    {
        must(self.to == w, StepFault::NotAddressed)?;
        let timely = self.claim == x.claim && self.epoch == x.epoch && !x.taken;
        must(timely, StepFault::Late)
    }
}
