// Questions 1 and 2: whether a group has the right sizes, and whether it has a worker.
ghost use Rattle.std.specs.Prelude.{◌≡◌, true, IfOk, slice_index_or};
ghost use Rattle.protocol.specs.Store.{asked, blank, made_in};
ghost use Rattle.tables.specs.Views.{table_of};
ghost use Rattle.memory.specs.Views.{store_in, no_roster, SizedIn, HasWorker};

use crate::questions::must;
use crate::state::Memory;
use protocol::{LINES, MESSAGES_MAX, MESSAGES_MIN, StepFault, WORKERS_MAX, WORKERS_MIN, Worker};

impl<'a, L: Copy> Memory<'a, L> {
    // Whether the sizes are right (1).
    pub fn is_made(&self) -> bool
        ensures value { result ≡ made_in (store_in self.now no_roster) }
        ensures facts { result ≡ true → SizedIn (store_in self.now no_roster) }
    {
        let workers = self.workers.all.len();
        (WORKERS_MIN..=WORKERS_MAX).contains(&workers)
            && self.hand.all.len() == LINES * workers
            && self.accepted.all.len() == LINES * workers
            && self.learned.all.len() == LINES * workers
            && (MESSAGES_MIN..=MESSAGES_MAX).contains(&self.messages.places())
    }

    // The record of worker w, of a group of right sizes (1) that has such a worker (2).
    pub fn worker(&self, w: usize) -> Result<Worker, StepFault>
        ensures value { result ≡ asked (store_in self.now no_roster) w }
        ensures facts { IfOk result (λ x. HasWorker self.now w × (x ≡ slice_index_or (table_of self.now.workers) w blank)) }
    {
        must(self.is_made(), StepFault::Unmade)?;
        self.workers.all.get(w).copied().ok_or(StepFault::NoWorker)
    }
}
