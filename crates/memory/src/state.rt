// What a group holds.
use protocol::{Message, Worker};
use tables::{LentList, Table};

// The lent memory of a group: a record for each worker (replica), three tables of 64 cells a worker, and the messages.
#[derive(Drop)]
pub struct Memory<'a, L> {
    pub workers: Table<'a, Worker>,
    pub hand: Table<'a, Option<L>>,
    pub accepted: Table<'a, Option<L>>,
    pub learned: Table<'a, Option<L>>,
    pub messages: LentList<'a, Message<L>>,
}
