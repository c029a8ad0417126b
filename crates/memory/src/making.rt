// Making a group: its tables are emptied where its sizes are right, and left as they are where not.
ghost use Rattle.std.specs.Prelude.{◌≡◌, length};
ghost use Rattle.roster.specs.declared.entry.Entry.{Entry};
ghost use Rattle.roster.specs.Model.{RosterModel};
ghost use Rattle.protocol.specs.Store.{made_of};
ghost use Rattle.memory.specs.Views.{store_in};

use crate::state::Memory;
use protocol::{Message, Worker};
use tables::{LentList, Table};

impl<'a, L: Copy> Memory<'a, L> {
    // A group in these tables, with empty cells, zeros and no message; where the sizes are not right, no table is touched.
    pub fn new(
        workers: &'a mut [Worker],
        hand: &'a mut [Option<L>],
        accepted: &'a mut [Option<L>],
        learned: &'a mut [Option<L>],
        messages: &'a mut [Message<L>],
    ) -> Memory<'a, L>
        ensures value { (m : RosterModel (Entry L)) → store_in result m ≡ made_of workers.old hand.old accepted.old learned.old (length messages.old) m }
        ensures same { result.messages.table.now ≡ messages.old }
    {
        let mut group = Memory {
            workers: Table { all: workers },
            hand: Table { all: hand },
            accepted: Table { all: accepted },
            learned: Table { all: learned },
            messages: LentList::new(messages),
        };
        if group.is_made() {
            group.workers.all.fill(Worker::default());
            group.hand.all.fill(None);
            group.accepted.all.fill(None);
            group.learned.all.fill(None);
        }
        group
    }
}
