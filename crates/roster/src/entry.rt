// What a roster holds.

// An entry of a roster (configuration log), over the kind of line (log entry). Workers (replicas) and lines are given
// by their numbers.
#[derive(Clone, Copy, PartialEq, Eq, Debug)]
pub enum Entry<L> {
    // The worker leads: the place of this entry is its claim (proposal number).
    Lead(usize),
    // The worker takes the seat (active acceptor).
    Seat(usize),
    // The line of this number is carried over to later seats.
    Carry(usize, L),
}
