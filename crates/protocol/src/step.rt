// The steps of a group, and what a step answers.
ghost use Rattle.std.specs.Prelude.{◌≡◌};
ghost use Rattle.protocol.specs.Faults.{worker_in};

// One of the nine steps. Workers are numbered from 0, lines from 1, messages from 0.
#[derive(Clone, Copy, PartialEq, Eq, Debug)]
pub enum Step<L> {
    // give the seat (active acceptor) to a worker, as the roster's first entry
    Found(usize),
    // a worker reads the next roster entry
    Read(usize),
    // a worker makes a claim (proposal number)
    Lead(usize),
    // a worker asks the seat for its promise
    Prepare(usize),
    // a worker proposes a line for a line number
    Propose(usize, usize, L),
    // a worker carries the line in hand for a line number over into the roster
    Carry(usize, usize),
    // a worker gives the seat to another worker
    Reseat(usize, usize),
    // a message is delivered to a worker
    Deliver(usize, usize),
    // a message is lost
    Lose(usize),
}

// What a step that is not refused answers: that it was done, or, to a Propose, that another line is in hand and was sent.
#[derive(Clone, Copy, PartialEq, Eq, Debug)]
pub enum Answer {
    Done,
    Held,
}

impl<L: Copy> Step<L> {
    // The worker that the step is given, which a refusal tells: for Found the seat, for Lose 0.
    pub fn worker(&self) -> usize
        ensures { result ≡ worker_in self.now }
    {
        match *self {
            Step::Found(worker)
            | Step::Read(worker)
            | Step::Lead(worker)
            | Step::Prepare(worker)
            | Step::Propose(worker, _, _)
            | Step::Carry(worker, _)
            | Step::Reseat(worker, _)
            | Step::Deliver(_, worker) => worker,
            // a Lose is given no worker, and its refusal tells 0 by the protocol's rule
            Step::Lose(_) => 0,
        }
    }
}
