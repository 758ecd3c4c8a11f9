// The ways in which a run recovers from faults.

/// How a run recovers from faults.
///
/// A selective run restarts what is struck and its dependents, and nothing else, and undoes what they did from
/// histories. One that rolls back does all again from the greatest cut on that is not after what is struck, from a copy
/// of the data at that cut. Its cuts are the multiples of a number, which is at least 1, and the subthreads that begin
/// with a settle.
#[derive(Clone, Copy, PartialEq, Eq)]
pub enum Recovery {
    Selective,
    Rollback(u32),
}
