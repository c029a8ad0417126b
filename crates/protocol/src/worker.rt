// A worker's record.
ghost use Rattle.std.specs.Prelude.{◌≡◌, ◌+◌};

// What one worker (replica) keeps, but for its cells. Places are those of roster entries, counted from 1. They are compared
// as numbers, with one that has not come below all others, so that one is 0 and no `Option`.
#[derive(Clone, Copy, PartialEq, Eq, Debug, Default)]
pub struct Worker {
    // how many roster entries it has read
    pub mark: u32,
    // the place of the last Seat entry that it has read, 0 for none
    pub epoch: u32,
    // the worker of that entry: the seat (active acceptor)
    pub seat: usize,
    // its claim (proposal number): the place of its Lead entry, 0 for none
    pub claim: u32,
    // whether that claim is taken up
    pub taken: bool,
    // the promised count, if one has come
    pub count: Option<u32>,
    // the set of lines reported, and the set of lines in hand that are carried: line k is bit k - 1
    pub reported: u64,
    pub carried: u64,
    // as acceptor: the place of the Seat entry that it sits under, and its promise, a claim; 0 for none
    pub sits: u32,
    pub promise: u32,
}

impl Worker {
    // The place of the roster entry after those that it has read.
    pub fn next_place(&self) -> usize
        ensures { result ≡ self.now.mark + 1 }
    {
        self.mark as usize + 1
    }
}
