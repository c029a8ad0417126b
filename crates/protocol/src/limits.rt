// The sizes of a group.

// The lines (log entries) of a book, and so the cells of a worker (replica) in each table.
pub const LINES: usize = 64;
// The fewest and the most workers (replicas) of a group.
pub const WORKERS_MIN: usize = 3;

pub const WORKERS_MAX: usize = 8;
// The fewest and the most places of a group's message table.
pub const MESSAGES_MIN: usize = 16;

pub const MESSAGES_MAX: usize = 4096;
