// The entry of a position.

ghost use Rattle.std.specs.Prelude.{◌≡◌};
ghost use Rattle.reorder_list.specs.Entries.{is_waiting, is_applied};

use gp_base::{At, Footprint, Lines, LockNo, Nums, Pos, Seq, ThreadNo};
use record_store::History;
use task_ast::Next;

/// Where the present attempt of a position stands: it was not posted; it was posted and its result is not there; its
/// result is applied.
#[derive(Clone, Copy, PartialEq, Eq)]
pub enum State {
    Waiting,
    Out,
    Applied,
}

/// A subthread that has begun: its position and thread, the synchronisation that begins it, where its code and its
/// control variables stand then, the locks that it holds and the child that it forks; its present attempt and the front
/// at which that began; what it may read and write by its locks; what it reads and writes, where that is known; and,
/// where it is applied, its lines and, if it is kept, its history.
#[derive(Drop)]
pub struct Entry {
    pub pos: Pos,
    pub thread: ThreadNo,
    pub begins: Next,
    pub at: At,
    pub ctl: Nums,
    pub held: Seq<LockNo>,
    pub child: Option<ThreadNo>,
    pub attempt: u32,
    pub begun: u32,
    pub state: State,
    pub locks: Footprint,
    pub foot: Option<Footprint>,
    pub hist: Option<History>,
    pub prints: Lines,
}

impl State {
    /// Whether the attempt was not posted.
    pub fn is_waiting(self) -> bool
        ensures { result ≡ is_waiting self }
    {
        matches!(self, State::Waiting)
    }

    /// Whether the attempt's result is applied.
    pub fn is_applied(self) -> bool
        ensures { result ≡ is_applied self }
    {
        matches!(self, State::Applied)
    }
}
