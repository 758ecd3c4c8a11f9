// Threads that wait alike.

use crate::words::{push_counted, push_stretch};
use gp_base::{LockNo, Name};
use run_standing::Standing;
use run_views::{push_between, push_labelled, push_lock};
use std::alloc::{AllocError, Global};
use task_ast::{Head, Next, SyncOp};

// From how many threads on that wait they are told in groups, too.
const FEWEST: usize = 12;

// How many groups are told, and how many stretches of thread numbers of each.
const MOST_GROUPS: usize = 20;

const MOST_STRETCHES: usize = 4;

// How many threads are told that keep a lock while they wait.
const MOST_KEPT: usize = 4;

// Threads from one number to another.
#[derive(Clone, Copy)]
struct Stretch {
    from: usize,
    to: usize,
}

// Threads that wait in one line for one thing.
#[derive(Drop)]
struct Group<'a> {
    next: &'a Next,
    stretches: Vec<Stretch>,
    count: usize,
}

// Whether two threads wait in one line for one thing.
fn are_alike(one: &Next, other: &Next) -> bool {
    if one.line != other.line {
        return false;
    }
    match (&one.sync, &other.sync) {
        (SyncOp::Lock(a), SyncOp::Lock(b)) => a.0 == b.0,
        (SyncOp::Join(a), SyncOp::Join(b)) => *a == *b,
        (SyncOp::Barrier(a), SyncOp::Barrier(b)) => *a == *b,
        _ => false,
    }
}

impl<'a> Group<'a> {
    fn new(alloc: Global, next: &'a Next) -> Group<'a> {
        Group {
            next,
            stretches: Vec::new(alloc),
            count: 0,
        }
    }

    // One thread more, whose number is above those of the others.
    fn add(&mut self, thread: usize) -> Result<(), AllocError> {
        self.count = self.count.saturating_add(1);
        let last = self.stretches.len().saturating_sub(1);
        if let Some(stretch) = self.stretches.get_mut(last) {
            if stretch.to.saturating_add(1) == thread {
                stretch.to = thread;
                return Ok(());
            }
        }
        self.stretches.push(Stretch {
            from: thread,
            to: thread,
        })?;
        Ok(())
    }
}

// Adds a thread to the group of those that wait as it does.
fn put_thread<'a>(
    alloc: Global,
    groups: &mut Vec<Group<'a>>,
    thread: usize,
    next: &'a Next,
) -> Result<(), AllocError> {
    for group in groups.iter_mut() {
        if are_alike(group.next, next) {
            return group.add(thread);
        }
    }
    let mut group = Group::new(alloc, next);
    group.add(thread)?;
    groups.push(group)?;
    Ok(())
}

// The threads that wait, in groups, and how many they are.
fn groups_of<'a>(
    alloc: Global,
    nexts: &'a [Option<Next>],
) -> Result<(Vec<Group<'a>>, usize), AllocError> {
    let mut groups = Vec::new(alloc);
    let mut count: usize = 0;
    let mut thread: usize = 0;
    for next in nexts {
        if let Some(next) = next {
            if !next.sync.is_end() {
                put_thread(alloc, &mut groups, thread, next)?;
                count = count.saturating_add(1);
            }
        }
        thread = thread.saturating_add(1);
    }
    Ok((groups, count))
}

// Appends the numbers of threads.
fn push_stretches(text: &mut Vec<u8>, group: &Group<'_>) -> Result<(), AllocError> {
    let mut left = group.count;
    let mut told: usize = 0;
    let mut between: &[u8] = b"threads ";
    for stretch in group.stretches.as_slice() {
        if told == MOST_STRETCHES {
            return push_between(text, b" and ", left, b" more");
        }
        push_stretch(text, between, stretch.from as u64, stretch.to as u64)?;
        let count = stretch.to.saturating_sub(stretch.from).saturating_add(1);
        left = left.saturating_sub(count);
        told = told.saturating_add(1);
        between = b", ";
    }
    Ok(())
}

// Appends the name of a barrier by its number.
fn push_barrier(text: &mut Vec<u8>, heads: &[Head], number: u32) -> Result<(), AllocError> {
    let mut left = number;
    for head in heads {
        if let Head::BarrierHead { name, .. } = head {
            if left == 0 {
                return push_named(text, name);
            }
            left = left.saturating_sub(1);
        }
    }
    Ok(())
}

fn push_named(text: &mut Vec<u8>, name: &Name) -> Result<(), AllocError> {
    text.extend_from_slice(b"barrier ")?;
    text.extend_from_slice(name.as_slice())
}

// Appends a lock and who has it.
fn push_owned(
    text: &mut Vec<u8>,
    heads: &[Head],
    standing: &Standing,
    lock: LockNo,
) -> Result<(), AllocError> {
    text.extend_from_slice(b"lock ")?;
    push_lock(text, heads, lock)?;
    match standing.owners.get(lock.0 as usize) {
        Some(Some(owner)) => push_labelled(text, b" of thread ", *owner),
        _ => Ok(()),
    }
}

// Appends for what threads wait.
fn push_wanted(
    text: &mut Vec<u8>,
    heads: &[Head],
    standing: &Standing,
    sync: &SyncOp,
) -> Result<(), AllocError> {
    match sync {
        SyncOp::Lock(lock) => push_owned(text, heads, standing, *lock),
        SyncOp::Join(thread) => push_between(text, b"thread ", *thread, b" to end"),
        SyncOp::Barrier(number) => push_barrier(text, heads, *number),
        _ => text.extend_from_slice(b"their turn"),
    }
}

// Appends the line of a group.
fn push_group(
    text: &mut Vec<u8>,
    heads: &[Head],
    standing: &Standing,
    group: &Group<'_>,
) -> Result<(), AllocError> {
    push_stretches(text, group)?;
    push_between(text, b" line ", group.next.line, b" wait for ")?;
    push_wanted(text, heads, standing, &group.next.sync)?;
    text.extend_from_slice(b"\n")
}

// Appends the first groups of more than one thread, and gives how many threads these have.
fn push_groups(
    text: &mut Vec<u8>,
    heads: &[Head],
    standing: &Standing,
    groups: &[Group<'_>],
) -> Result<usize, AllocError> {
    let mut told: usize = 0;
    let mut lines: usize = 0;
    for group in groups {
        if group.count > 1 && lines < MOST_GROUPS {
            push_group(text, heads, standing, group)?;
            told = told.saturating_add(group.count);
            lines = lines.saturating_add(1);
        }
    }
    Ok(told)
}

/// Appends the threads that wait alike in groups, the first of them, and how many wait besides, where many threads wait.
/// The error is that memory is out.
pub fn push_alike(
    alloc: Global,
    text: &mut Vec<u8>,
    heads: &[Head],
    standing: &Standing,
) -> Result<(), AllocError> {
    let (groups, count) = groups_of(alloc, standing.nexts.as_slice())?;
    if count < FEWEST || groups.len() == count {
        return Ok(());
    }
    push_between(
        text,
        b"hint: of these ",
        count,
        b" threads these wait alike:\n",
    )?;
    let told = push_groups(text, heads, standing, &groups)?;
    let more = count.saturating_sub(told) as u64;
    if more == 0 {
        return Ok(());
    }
    push_counted(text, b"and ", more, b" more thread", b"\n")
}

// The line in which a thread waits for others, at a join or a barrier.
fn meeting_line(standing: &Standing, thread: usize) -> Option<u32> {
    let next = standing.nexts.get(thread)?.as_ref()?;
    match next.sync {
        SyncOp::Join(_) | SyncOp::Barrier(_) => Some(next.line),
        _ => None,
    }
}

// Whether a thread waits for a lock.
fn is_wanted(standing: &Standing, wanted: LockNo) -> bool {
    for next in standing.nexts.as_slice() {
        if let Some(next) = next {
            if matches!(next.sync, SyncOp::Lock(lock) if lock.0 == wanted.0) {
                return true;
            }
        }
    }
    false
}

// The thread that has a lock, and the line in which it waits for others, where another waits for the lock meanwhile.
fn keeping(standing: &Standing, owner: Option<usize>, lock: LockNo) -> Option<(usize, u32)> {
    let thread = owner?;
    let line = meeting_line(standing, thread)?;
    if is_wanted(standing, lock) {
        Some((thread, line))
    } else {
        None
    }
}

// Appends that a thread keeps a lock while it waits in a line.
fn push_keeping(
    text: &mut Vec<u8>,
    heads: &[Head],
    thread: usize,
    lock: LockNo,
    line: u32,
) -> Result<(), AllocError> {
    push_between(text, b"hint: thread ", thread, b" keeps ")?;
    push_lock(text, heads, lock)?;
    push_between(
        text,
        b" while it waits in line ",
        line,
        b": give the lock back before\n",
    )
}

/// Appends the first threads that keep a lock for which others wait, while they wait themselves at a join or a barrier. The
/// error is that memory is out.
pub fn push_kept(
    text: &mut Vec<u8>,
    heads: &[Head],
    standing: &Standing,
) -> Result<(), AllocError> {
    let mut told: usize = 0;
    let mut number: u32 = 0;
    for owner in standing.owners.as_slice() {
        let lock = LockNo(number);
        if let Some((thread, line)) = keeping(standing, *owner, lock) {
            if told == MOST_KEPT {
                return Ok(());
            }
            push_keeping(text, heads, thread, lock, line)?;
            told = told.saturating_add(1);
        }
        number = number.saturating_add(1);
    }
    Ok(())
}

/// Appends the first thread that waits for itself to end. The error is that memory is out.
pub fn push_own_join(text: &mut Vec<u8>, standing: &Standing) -> Result<(), AllocError> {
    let mut thread: i64 = 0;
    for next in standing.nexts.as_slice() {
        if let Some(next) = next {
            if matches!(next.sync, SyncOp::Join(joined) if joined == thread) {
                return push_between(
                    text,
                    b"hint: thread ",
                    thread,
                    b" joins itself: 0 is main, and the forks make threads 1, 2 and so on\n",
                );
            }
        }
        thread = thread.saturating_add(1);
    }
    Ok(())
}
