// A group of workers, and what its steps tell.
ghost use Rattle.std.specs.Prelude.{◌≡◌};
ghost use Rattle.protocol.specs.Faults.{told_of};
ghost use Rattle.protocol.specs.Store.{plainly};

use memory::Memory;
use protocol::{Answer, Refusal, StepFault, told};

// Three to eight workers (replicas) over lent memory, each with its own copy of one book of 64 lines (log entries) of
// kind `L`. The caller chooses every step. A group that was made with other sizes refuses every call with 1.
#[derive(Drop)]
pub struct Group<'a, L> {
    pub(crate) memory: Memory<'a, L>,
}

// What is told of a step of a worker that answers no more than that it was done.
pub(crate) fn done(
    worker: usize,
    answer: Result<(), StepFault>,
) -> Result<Answer, Refusal<StepFault>>
    ensures { result ≡ told_of worker (plainly answer) }
{
    told(worker, answer.map(|()| Answer::Done))
}
