// Making a group.
ghost use Rattle.std.specs.Prelude.{◌≡◌, true, false, [], length, Err};
ghost use Rattle.roster.specs.declared.entry.Entry.{Entry as EntryOf};
ghost use Rattle.roster.specs.Model.{RosterModel};
ghost use Rattle.protocol.specs.declared.fault.StepFault.TheVariants.{Unmade};
ghost use Rattle.protocol.specs.declared.step.Step.{Step as StepOf};
ghost use Rattle.protocol.specs.Faults.{worker_in};
ghost use Rattle.protocol.specs.Promises.{Begins};
ghost use Rattle.protocol.specs.Sizes.{sized_test};
ghost use Rattle.protocol.specs.Store.{made_of, step_answer};
ghost use Rattle.group.specs.Views.{store_of};

use crate::state::Group;
use memory::Memory;
use protocol::{Message, Worker};

impl<'a, L: Copy> Group<'a, L> {
    // A group of 3 to 8 workers, one for each record, with 64 cells a worker in each of three tables and 16 to 4,096
    // message places. It begins with empty cells, zeros in the records and no message, and with any empty roster it
    // begins a run. With other sizes no table is touched, and the group refuses every step with 1.
    pub fn new(
        workers: &'a mut [Worker],
        hand: &'a mut [Option<L>],
        accepted: &'a mut [Option<L>],
        learned: &'a mut [Option<L>],
        messages: &'a mut [Message<L>],
    ) -> Group<'a, L>
        ensures value { (m' : RosterModel (EntryOf L)) → store_of result m' ≡ made_of workers.old hand.old accepted.old learned.old (length messages.old) m' }
        ensures same { result.memory.messages.table.now ≡ messages.old }
        ensures promise { sized_test (length workers.old) (length hand.old) (length accepted.old) (length learned.old) (length messages.old) ≡ true → (m' : RosterModel (EntryOf L)) → m'.entries ≡ [] → Begins (store_of result m') }
        ensures unmade { sized_test (length workers.old) (length hand.old) (length accepted.old) (length learned.old) (length messages.old) ≡ false → (m' : RosterModel (EntryOf L)) (s : StepOf L) → step_answer s (store_of result m') ≡ Err (record { fault = Unmade; worker = worker_in s }) }
    {
        Group {
            memory: Memory::new(workers, hand, accepted, learned, messages),
        }
    }
}
