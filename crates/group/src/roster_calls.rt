// The five steps that read or append to the roster.
ghost use Rattle.std.specs.Prelude.{◌≡◌};
ghost use Rattle.protocol.specs.declared.step.Step.TheVariants.{Found, Read, Lead, Carry, Reseat};
ghost use Rattle.protocol.specs.Promises.{GoesOn};
ghost use Rattle.protocol.specs.Store.{step_after, step_answer};
ghost use Rattle.group.specs.Views.{store_of};

use crate::state::{Group, done};
use protocol::{Answer, Refusal, StepFault};
use roster::{Entry, Roster};

impl<'a, L: Copy> Group<'a, L> {
    // The seat (active acceptor) goes to worker `a`, as the roster's first entry.
    pub fn found<R: Roster<Entry<L>>>(
        &mut self,
        roster: &mut R,
        a: usize,
    ) -> Result<Answer, Refusal<StepFault>>
        ensures value { result ≡ step_answer (Found a) (store_of self.old (R.model roster.old)) }
        ensures after { store_of self.new (R.model roster.new) ≡ step_after (Found a) (store_of self.old (R.model roster.old)) }
        ensures promise { GoesOn (Found a) (store_of self.old (R.model roster.old)) (store_of self.new (R.model roster.new)) }
    {
        done(a, roster_steps::found(&mut self.memory, roster, a))
    }

    // Worker `w` takes the entry after those that it has read.
    pub fn read<R: Roster<Entry<L>>>(
        &mut self,
        roster: &mut R,
        w: usize,
    ) -> Result<Answer, Refusal<StepFault>>
        ensures value { result ≡ step_answer (Read w) (store_of self.old (R.model roster.old)) }
        ensures after { store_of self.new (R.model roster.new) ≡ step_after (Read w) (store_of self.old (R.model roster.old)) }
        ensures promise { GoesOn (Read w) (store_of self.old (R.model roster.old)) (store_of self.new (R.model roster.new)) }
    {
        done(w, roster_steps::read(&mut self.memory, roster, w))
    }

    // Worker `w` makes a claim (proposal number): it appends its Lead entry, whose place is the claim.
    pub fn lead<R: Roster<Entry<L>>>(
        &mut self,
        roster: &mut R,
        w: usize,
    ) -> Result<Answer, Refusal<StepFault>>
        ensures value { result ≡ step_answer (Lead w) (store_of self.old (R.model roster.old)) }
        ensures after { store_of self.new (R.model roster.new) ≡ step_after (Lead w) (store_of self.old (R.model roster.old)) }
        ensures promise { GoesOn (Lead w) (store_of self.old (R.model roster.old)) (store_of self.new (R.model roster.new)) }
    {
        done(w, roster_steps::lead(&mut self.memory, roster, w))
    }

    // Worker `w` carries its line `k` over into the roster.
    pub fn carry<R: Roster<Entry<L>>>(
        &mut self,
        roster: &mut R,
        w: usize,
        k: usize,
    ) -> Result<Answer, Refusal<StepFault>>
        ensures value { result ≡ step_answer (Carry w k) (store_of self.old (R.model roster.old)) }
        ensures after { store_of self.new (R.model roster.new) ≡ step_after (Carry w k) (store_of self.old (R.model roster.old)) }
        ensures promise { GoesOn (Carry w k) (store_of self.old (R.model roster.old)) (store_of self.new (R.model roster.new)) }
    {
        done(w, roster_steps::carry(&mut self.memory, roster, w, k))
    }

    // Worker `w` moves the seat (active acceptor) to worker `b`.
    pub fn reseat<R: Roster<Entry<L>>>(
        &mut self,
        roster: &mut R,
        w: usize,
        b: usize,
    ) -> Result<Answer, Refusal<StepFault>>
        ensures value { result ≡ step_answer (Reseat w b) (store_of self.old (R.model roster.old)) }
        ensures after { store_of self.new (R.model roster.new) ≡ step_after (Reseat w b) (store_of self.old (R.model roster.old)) }
        ensures promise { GoesOn (Reseat w b) (store_of self.old (R.model roster.old)) (store_of self.new (R.model roster.new)) }
    {
        done(w, roster_steps::reseat(&mut self.memory, roster, w, b))
    }
}
