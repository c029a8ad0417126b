// The messages between workers.

// A message of a worker to another. `epoch` is the place of a Seat entry, `claim` that of a Lead entry, `line` a line
// number from 1 to 64, and `value` the line (log entry) itself.
#[derive(Clone, Copy, PartialEq, Eq, Debug)]
pub enum Message<L> {
    // to a seat: promise to accept nothing of an earlier claim, and report what was accepted
    Prepare {
        from: usize,
        to: usize,
        epoch: u32,
        claim: u32,
    },
    // to a seat: accept a line
    Proposal {
        from: usize,
        to: usize,
        epoch: u32,
        claim: u32,
        line: usize,
        value: L,
    },
    // to a leading worker: promised, with the number of Reports that follow
    Promise {
        from: usize,
        to: usize,
        epoch: u32,
        claim: u32,
        count: u32,
    },
    // to a leading worker: an accepted line
    Report {
        from: usize,
        to: usize,
        epoch: u32,
        claim: u32,
        line: usize,
        value: L,
    },
    // to anyone: a line was accepted
    Learn {
        from: usize,
        line: usize,
        value: L,
    },
}
