// Where the threads of a run were forked, and which of them began the most subthreads.

use crate::threads::child_of;
use crate::words::{at, plural, put};
use gp_base::ThreadNo;
use one_thread::Step;
use std::alloc::{AllocError, Global};
use task_ast::SyncOp;
use text_pieces::Piece::{Number, Word};
use text_pieces::push_pieces;

// The line that forked the most threads, and how many.
fn most_forking(alloc: Global, order: &[Step]) -> Result<(u32, u32), AllocError> {
    let mut forked = Vec::new(alloc);
    for step in order {
        if let SyncOp::Fork { .. } = &step.begins.sync {
            let line = step.begins.line as usize;
            let count = at(&forked, line).saturating_add(1);
            put(&mut forked, line, count)?;
        }
    }
    Ok(greatest(&forked))
}

// The place of the greatest of these numbers, the first of them, and that number.
fn greatest(numbers: &[u32]) -> (u32, u32) {
    let mut best = (0, 0);
    let mut place: u32 = 0;
    for number in numbers {
        if *number > best.1 {
            best = (place, *number);
        }
        place = place.saturating_add(1);
    }
    best
}

/// Appends which line forked the most of a run's threads. The error is that memory is out.
pub fn push_forks(alloc: Global, text: &mut Vec<u8>, order: &[Step]) -> Result<(), AllocError> {
    let (line, count) = most_forking(alloc, order)?;
    let count = u64::from(count);
    push_pieces(
        text,
        &[
            Word(b"hint: line "),
            Number(u64::from(line)),
            Word(b" forked "),
            Number(count),
            Word(b" thread"),
            plural(count),
            Word(b"\n"),
        ],
    )
}

/// The thread that began the most subthreads of a run, the first of them, and how many it began. The error is that memory is
/// out.
pub fn busiest(alloc: Global, order: &[Step]) -> Result<(ThreadNo, u32), AllocError> {
    let mut begun = Vec::new(alloc);
    for step in order {
        let thread = step.thread.0 as usize;
        let count = at(&begun, thread).saturating_add(1);
        put(&mut begun, thread, count)?;
    }
    let (thread, count) = greatest(&begun);
    Ok((ThreadNo(thread), count))
}

// The threads that forked the others, by their numbers; a thread that none forked has 0.
fn parents_of(alloc: Global, order: &[Step]) -> Result<Vec<u32>, AllocError> {
    let mut parents = Vec::new(alloc);
    for step in order {
        if let Some(child) = child_of(step) {
            put(&mut parents, child.0 as usize, step.thread.0)?;
        }
    }
    Ok(parents)
}

/// Appends through how many threads a thread was forked, one by another, if there are more than two of them, and answers
/// whether there are. The error is that memory is out.
pub fn push_chain(
    alloc: Global,
    text: &mut Vec<u8>,
    order: &[Step],
    thread: ThreadNo,
) -> Result<bool, AllocError> {
    let parents = parents_of(alloc, order)?;
    let mut number = thread.0;
    let mut length: u64 = 0;
    for _ in 0..parents.len() {
        if number != 0 {
            number = at(&parents, number as usize);
            length = length.saturating_add(1);
        }
    }
    if length < 3 {
        return Ok(false);
    }
    let parent = at(&parents, thread.0 as usize);
    push_pieces(
        text,
        &[
            Word(b"hint: thread "),
            Number(u64::from(thread.0)),
            Word(b" was forked by thread "),
            Number(u64::from(parent)),
            Word(b", that by thread "),
            Number(u64::from(at(&parents, parent as usize))),
            Word(b", and so on, "),
            Number(length),
            Word(b" threads deep: a task that forks itself has to end somewhere\n"),
        ],
    )?;
    Ok(true)
}
