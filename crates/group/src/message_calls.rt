// The four steps that send, deliver or lose a message. They neither ask nor change a roster, and their clauses hold beside any.
ghost use Rattle.std.specs.Prelude.{◌≡◌};
ghost use Rattle.roster.specs.declared.entry.Entry.{Entry as EntryOf};
ghost use Rattle.roster.specs.Model.{RosterModel};
ghost use Rattle.protocol.specs.declared.step.Step.TheVariants.{Prepare, Propose, Deliver, Lose};
ghost use Rattle.protocol.specs.Promises.{GoesOn};
ghost use Rattle.protocol.specs.Store.{step_after, step_answer};
ghost use Rattle.group.specs.Views.{store_of};

use crate::state::{Group, done};
use protocol::{Answer, Refusal, StepFault, told};

impl<'a, L: Copy> Group<'a, L> {
    // Worker `w` asks its seat for a promise.
    pub fn prepare(&mut self, w: usize) -> Result<Answer, Refusal<StepFault>>
        ensures value { (m' : RosterModel (EntryOf L)) → result ≡ step_answer (Prepare w) (store_of self.old m') }
        ensures after { (m' : RosterModel (EntryOf L)) → store_of self.new m' ≡ step_after (Prepare w) (store_of self.old m') }
        ensures promise { (m' : RosterModel (EntryOf L)) → GoesOn (Prepare w) (store_of self.old m') (store_of self.new m') }
    {
        done(w, message_steps::prepare(&mut self.memory, w))
    }

    // Worker `w` proposes a line for line `k`; where it has a line for `k` in hand, that one is sent and the answer is Held.
    pub fn propose(&mut self, w: usize, k: usize, line: L) -> Result<Answer, Refusal<StepFault>>
        ensures value { (m' : RosterModel (EntryOf L)) → result ≡ step_answer (Propose w k line) (store_of self.old m') }
        ensures after { (m' : RosterModel (EntryOf L)) → store_of self.new m' ≡ step_after (Propose w k line) (store_of self.old m') }
        ensures promise { (m' : RosterModel (EntryOf L)) → GoesOn (Propose w k line) (store_of self.old m') (store_of self.new m') }
    {
        told(w, message_steps::propose(&mut self.memory, w, k, line))
    }

    // Message `m` is delivered to worker `w`, and kept.
    pub fn deliver(&mut self, m: usize, w: usize) -> Result<Answer, Refusal<StepFault>>
        ensures value { (m' : RosterModel (EntryOf L)) → result ≡ step_answer (Deliver m w) (store_of self.old m') }
        ensures after { (m' : RosterModel (EntryOf L)) → store_of self.new m' ≡ step_after (Deliver m w) (store_of self.old m') }
        ensures promise { (m' : RosterModel (EntryOf L)) → GoesOn (Deliver m w) (store_of self.old m') (store_of self.new m') }
    {
        done(w, delivery::deliver(&mut self.memory, m, w))
    }

    // Message `m` is lost, and the last message takes its number.
    pub fn lose(&mut self, m: usize) -> Result<Answer, Refusal<StepFault>>
        ensures value { (m' : RosterModel (EntryOf L)) → result ≡ step_answer (Lose m) (store_of self.old m') }
        ensures after { (m' : RosterModel (EntryOf L)) → store_of self.new m' ≡ step_after (Lose m) (store_of self.old m') }
        ensures promise { (m' : RosterModel (EntryOf L)) → GoesOn (Lose m) (store_of self.old m') (store_of self.new m') }
    {
        done(0, message_steps::lose(&mut self.memory, m))
    }
}
