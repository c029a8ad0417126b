// The vectors that a group is made in.
ghost use Rattle.std.specs.Prelude.{◌≡◌, true, [], IfOk};
ghost use Rattle.roster.specs.declared.entry.Entry.{Entry as EntryOf};
ghost use Rattle.roster.specs.Model.{RosterModel};
ghost use Rattle.protocol.specs.Promises.{Begins};
ghost use Rattle.group.specs.Views.{store_of};
ghost use Rattle.storage.specs.Storage.{HasSizes, begun_in, sized_in};

use group::Group;
use protocol::{Message, Worker};
use std::alloc::{AllocError, Global};

// A vector for each table that a group is lent: a record for each worker (replica), three tables of cells, and the message places.
#[derive(Drop)]
pub struct Storage<L> {
    pub workers: Vec<Worker>,
    pub hand: Vec<Option<L>>,
    pub accepted: Vec<Option<L>>,
    pub learned: Vec<Option<L>>,
    pub messages: Vec<Message<L>>,
}

impl<L: Copy> Storage<L> {
    // Storage with so many worker records, cells in each table, and message places, each of which holds `unsent`.
    pub fn new(
        heap: Global,
        workers: usize,
        cells: usize,
        places: usize,
        unsent: Message<L>,
    ) -> Result<Storage<L>, AllocError>
        ensures { IfOk result (λ storage. HasSizes storage workers cells places) }
    {
        Ok(Storage {
            workers: vec![in heap; Worker::default(); workers]?,
            hand: vec![in heap; None; cells]?,
            accepted: vec![in heap; None; cells]?,
            learned: vec![in heap; None; cells]?,
            messages: vec![in heap; unsent; places]?,
        })
    }

    // A group in this storage, which begins a run with any empty roster where the sizes are those of a group.
    pub fn group(&mut self) -> Group<'_, L>
        ensures value { (m' : RosterModel (EntryOf L)) → store_of result m' ≡ begun_in self.old m' }
        ensures promise { sized_in self.old ≡ true → (m' : RosterModel (EntryOf L)) → m'.entries ≡ [] → Begins (store_of result m') }
    {
        let Storage {
            workers,
            hand,
            accepted,
            learned,
            messages,
        } = self;
        Group::new(
            workers.as_mut_slice(),
            hand.as_mut_slice(),
            accepted.as_mut_slice(),
            learned.as_mut_slice(),
            messages.as_mut_slice(),
        )
    }
}
