// What can be asked of a group.
ghost use Rattle.std.specs.Prelude.{◌≡◌, length};
ghost use Rattle.roster.specs.declared.entry.Entry.{Entry as EntryOf};
ghost use Rattle.roster.specs.Model.{RosterModel};
ghost use Rattle.protocol.specs.Runs.{holds};
ghost use Rattle.group.specs.Views.{store_of, workers_in};

use crate::state::Group;

impl<'a, L: Copy> Group<'a, L> {
    // How many workers (replicas) the group has; none where it was made with wrong sizes.
    pub fn workers(&self) -> Option<usize>
        ensures { (m' : RosterModel (EntryOf L)) → result ≡ workers_in (store_of self.now m') }
    {
        self.memory.is_made().then(|| self.memory.workers.all.len())
    }

    // How many messages there are.
    pub fn messages(&self) -> usize
        ensures { (m' : RosterModel (EntryOf L)) → result ≡ length (store_of self.now m').messages }
    {
        self.memory.messages.len()
    }

    // The line (log entry) that worker `w` holds as line `k`, if it holds one. A worker that the group does not have holds nothing.
    #[tactic(auto, using(crate::proofs::Strangers::stranger_none))]
    pub fn line(&self, w: usize, k: usize) -> Option<L>
        ensures { (m' : RosterModel (EntryOf L)) → result ≡ holds (store_of self.now m') w k }
    {
        if !self.memory.is_made() || w >= self.memory.workers.all.len() {
            return None;
        }
        self.memory.learned.cell(w, k)
    }
}
