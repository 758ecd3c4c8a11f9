// What a subthread may read and write.

use crate::{LockNo, RecNo, Seq, ThreadNo};

/// A location: the registers of a thread, a lock cell with the record cells under it, or one record cell.
#[derive(Clone, Copy, PartialEq, Eq)]
pub enum Loc {
    Regs(ThreadNo),
    Lock(LockNo),
    Rec(RecNo),
}

/// The locations that a subthread reads, and those that it writes (Bernstein's input and output sets).
#[derive(Drop)]
pub struct Footprint {
    pub reads: Seq<Loc>,
    pub writes: Seq<Loc>,
}
