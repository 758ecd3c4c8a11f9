// The lines of the threads that have not ended.
ghost use Rattle.std.specs.Prelude.{◌≡◌, ◌++◌, OnOk, codes};
ghost use Rattle.task_ast.specs.Table.{owner_in};
ghost use Rattle.run_views.specs.meaning.Waits.{other_text, holder_text, cause_text, wait_line, wait_text, waits_text};

use crate::names::{push_barrier, push_between, push_labelled, push_lock};
use gp_base::LockNo;
use std::alloc::AllocError;
use task_ast::{Head, Next, SyncOp};

// Who owns a lock cell.
fn owner_of(owners: &[Option<usize>], lock: LockNo) -> Option<usize>
    ensures { result ≡ owner_in owners.now lock }
{
    *owners.get(lock.0 as usize)?
}

// Appends that another thread holds it.
fn push_other(text: &mut Vec<u8>, u: usize) -> Result<(), AllocError>
    ensures { OnOk result (text.new.items ≡ text.old.items ++ other_text u) }
{
    push_labelled(text, b" of thread ", u)
}

// Appends who holds the lock that a thread waits for.
fn push_holder(text: &mut Vec<u8>, t: usize, owner: Option<usize>) -> Result<(), AllocError>
    ensures { OnOk result (text.new.items ≡ text.old.items ++ holder_text t owner) }
{
    match owner {
        None => Ok(()),
        Some(u) => {
            if t == u {
                text.extend_from_slice(b", which it holds itself")
            } else {
                push_other(text, u)
            }
        }
    }
}

// Appends what a thread waits for.
fn push_cause(
    text: &mut Vec<u8>,
    heads: &[Head],
    owners: &[Option<usize>],
    t: usize,
    sync: &SyncOp,
) -> Result<(), AllocError>
    ensures { OnOk result (text.new.items ≡ text.old.items ++ cause_text heads.now owners.now t sync.now) }
{
    match sync {
        SyncOp::Lock(lock) => {
            text.extend_from_slice(b"lock ")?;
            push_lock(text, heads, *lock)?;
            push_holder(text, t, owner_of(owners, *lock))
        }
        SyncOp::Join(thread) => push_between(text, b"thread ", *thread, b" to end"),
        SyncOp::Barrier(barrier) => {
            text.extend_from_slice(b"barrier ")?;
            push_barrier(text, heads, *barrier)
        }
        SyncOp::Start
        | SyncOp::Unlock(_)
        | SyncOp::Fork { .. }
        | SyncOp::Settle { .. }
        | SyncOp::End
        | SyncOp::BadIndex
        | SyncOp::Spent => text.extend_from_slice(b"its turn"),
    }
}

// Appends the line of a thread.
fn push_line(
    text: &mut Vec<u8>,
    heads: &[Head],
    owners: &[Option<usize>],
    t: usize,
    next: &Next,
) -> Result<(), AllocError>
    ensures { OnOk result (text.new.items ≡ text.old.items ++ wait_line heads.now owners.now t next.now) }
{
    push_labelled(text, b"thread ", t)?;
    push_labelled(text, b" line ", next.line)?;
    text.extend_from_slice(b" waits for ")?;
    push_cause(text, heads, owners, t, &next.sync)?;
    text.extend_from_slice(b"\n")
}

// Appends the line of a thread, where it has not ended.
fn push_wait(
    text: &mut Vec<u8>,
    heads: &[Head],
    owners: &[Option<usize>],
    t: usize,
    next: &Option<Next>,
) -> Result<(), AllocError>
    ensures { OnOk result (text.new.items ≡ text.old.items ++ wait_text heads.now owners.now t next.now) }
{
    match next {
        None => Ok(()),
        Some(next) => {
            if next.sync.is_end() {
                Ok(())
            } else {
                push_line(text, heads, owners, t, next)
            }
        }
    }
}

/// Appends a line for each thread that has not ended: where it stands, what it waits for, and who has that.
pub fn push_waits(
    text: &mut Vec<u8>,
    heads: &[Head],
    owners: &[Option<usize>],
    nexts: &[Option<Next>],
) -> Result<(), AllocError>
    ensures { OnOk result (text.new.items ≡ text.old.items ++ waits_text heads.now owners.now 0 nexts.now) }
{
    for (t, next) in nexts.iter().enumerate() {
        push_wait(text, heads, owners, t, next)?;
    }
    Ok(())
}
