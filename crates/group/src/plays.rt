// Any step as a value, and any steps one after the other.
ghost use Rattle.std.specs.Prelude.{◌≡◌};
ghost use Rattle.protocol.specs.Runs.{plays};
ghost use Rattle.protocol.specs.Promises.{GoesOn, PlaysOn};
ghost use Rattle.protocol.specs.Store.{step_after, step_answer};
ghost use Rattle.group.specs.Views.{store_of};

use crate::state::Group;
use protocol::{Answer, Refusal, Step, StepFault};
use roster::{Entry, Roster};

impl<'a, L: Copy> Group<'a, L> {
    // Does one step, whichever it is. A refused one changes nothing.
    pub fn step<R: Roster<Entry<L>>>(
        &mut self,
        roster: &mut R,
        s: &Step<L>,
    ) -> Result<Answer, Refusal<StepFault>>
        ensures value { result ≡ step_answer s.now (store_of self.old (R.model roster.old)) }
        ensures after { store_of self.new (R.model roster.new) ≡ step_after s.now (store_of self.old (R.model roster.old)) }
        ensures promise { GoesOn s.now (store_of self.old (R.model roster.old)) (store_of self.new (R.model roster.new)) }
    {
        match *s {
            Step::Found(a) => self.found(roster, a),
            Step::Read(w) => self.read(roster, w),
            Step::Lead(w) => self.lead(roster, w),
            Step::Prepare(w) => self.prepare(w),
            Step::Propose(w, k, line) => self.propose(w, k, line),
            Step::Carry(w, k) => self.carry(roster, w, k),
            Step::Reseat(w, b) => self.reseat(roster, w, b),
            Step::Deliver(m, w) => self.deliver(m, w),
            Step::Lose(m) => self.lose(m),
        }
    }

    // Does steps one after the other, refused ones too.
    pub fn play<R: Roster<Entry<L>>>(&mut self, roster: &mut R, steps: &[Step<L>])
        ensures after { store_of self.new (R.model roster.new) ≡ plays steps.now (store_of self.old (R.model roster.old)) }
        ensures promise { PlaysOn steps.now (store_of self.old (R.model roster.old)) (store_of self.new (R.model roster.new)) }
    {
        for step in steps {
            let _ = self.step(roster, step);
        }
    }
}
