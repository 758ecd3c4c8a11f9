// How a run ends.

use crate::{Pos, ThreadNo};

/// Why a run is stuck: no thread can go on; a cell outside a feed or a lock outside its array is named; a thread that
/// does not exist is joined; too many threads are forked.
#[derive(Clone, Copy, PartialEq, Eq)]
pub enum Why {
    Deadlock,
    Index,
    Join,
    Threads,
}

/// How a run ends: every thread has ended; a thread is stuck at a line; or a limit is reached at a position.
#[derive(Clone, Copy, PartialEq, Eq)]
pub enum End {
    Finished,
    Stuck {
        why: Why,
        thread: ThreadNo,
        line: u32,
    },
    Spent(Pos),
}
