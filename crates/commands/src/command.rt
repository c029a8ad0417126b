// Commands to a group.
use pack::StoredPackLine;
use protocol::Step;

// What a line of a script asks for: one of the nine steps, or the sheet of a worker (replica).
#[derive(Clone, Copy, PartialEq, Eq, Debug)]
pub enum Command {
    Do(Step<StoredPackLine>),
    Sheet(usize),
}
