// What begins a subthread and ends the one before it.

ghost use Rattle.std.specs.Prelude.{◌≡◌, ◌≤◌, IfOk};
ghost use Rattle.gp_base.specs.declared.limits.TheConstants.{MOST_THREADS};
ghost use Rattle.task_ast.specs.SyncOps.{is_start, joined_by, IsNumbered};
ghost use Rattle.task_ast.specs.meaning.Table.{is_end, is_settle};
ghost use Rattle.task_ast.specs.meaning.Turn.{child_of};

use gp_base::{LockNo, Nums, RecNo, Seq, ThreadNo};
use std::alloc::{AllocError, Global};

/// A synchronisation with its cells and control values looked up, or how a thread's last subthread ended: at the end
/// of its task, at an index fault, or with its loop turns spent.
#[derive(Drop)]
pub enum SyncOp {
    Start,
    Lock(LockNo),
    Unlock(LockNo),
    Fork { task: u32, args: Nums },
    Join(i64),
    Barrier(u32),
    Settle { reg: u32, ctl: u32 },
    End,
    BadIndex,
    Spent,
}

impl SyncOp {
    /// The same synchronisation again. The error is that memory is out.
    pub fn copied(&self, alloc: Global) -> Result<SyncOp, AllocError>
        ensures { IfOk result (λ copy. copy ≡ self.now) }
    {
        Ok(match self {
            SyncOp::Start => SyncOp::Start,
            SyncOp::Lock(lock) => SyncOp::Lock(*lock),
            SyncOp::Unlock(lock) => SyncOp::Unlock(*lock),
            SyncOp::Fork { task, args } => SyncOp::Fork {
                task: *task,
                args: args.copied(alloc)?,
            },
            SyncOp::Join(thread) => SyncOp::Join(*thread),
            SyncOp::Barrier(barrier) => SyncOp::Barrier(*barrier),
            SyncOp::Settle { reg, ctl } => SyncOp::Settle {
                reg: *reg,
                ctl: *ctl,
            },
            SyncOp::End => SyncOp::End,
            SyncOp::BadIndex => SyncOp::BadIndex,
            SyncOp::Spent => SyncOp::Spent,
        })
    }

    /// Whether a thread starts with it.
    pub fn is_start(&self) -> bool
        ensures { result ≡ is_start self.now }
    {
        matches!(self, SyncOp::Start)
    }

    /// Whether a thread ends with it.
    pub fn is_end(&self) -> bool
        ensures { result ≡ is_end self.now }
    {
        matches!(self, SyncOp::End)
    }

    /// Whether it is a settle.
    pub fn is_settle(&self) -> bool
        ensures { result ≡ is_settle self.now }
    {
        matches!(self, SyncOp::Settle { .. })
    }

    /// The number of the thread that it forks, where there are so many before it.
    pub fn child_of(&self, threads: usize) -> Option<ThreadNo>
        requires { threads ≤ MOST_THREADS }
        ensures { result ≡ child_of self.now threads }
    {
        match self {
            SyncOp::Fork { .. } => Some(ThreadNo(threads as u32)),
            _ => None,
        }
    }

    /// The thread that it joins, where it is a join of a thread that can be there.
    pub fn joined_by(&self) -> Option<ThreadNo>
        requires { IsNumbered self.now }
        ensures { result ≡ joined_by self.now }
    {
        match self {
            SyncOp::Join(thread) if *thread >= 0 => Some(ThreadNo(*thread as u32)),
            _ => None,
        }
    }
}

/// A thread's next synchronisation, with the line of its statement; for `Start`, `End` and `Spent` it is 0.
#[derive(Drop)]
pub struct Next {
    pub sync: SyncOp,
    pub line: u32,
}

impl Next {
    /// The same again. The error is that memory is out.
    pub fn copied(&self, alloc: Global) -> Result<Next, AllocError>
        ensures { IfOk result (λ copy. copy ≡ self.now) }
    {
        Ok(Next {
            sync: self.sync.copied(alloc)?,
            line: self.line,
        })
    }
}
