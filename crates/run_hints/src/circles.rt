// Threads that wait for one another's locks in a circle.

use gp_base::LockNo;
use run_standing::Standing;
use run_views::push_lock;
use std::alloc::{AllocError, Global};
use task_ast::{Head, SyncOp};
use text_pieces::Piece::{Number, Word};
use text_pieces::push_pieces;

// Of how many threads of a circle it is told in which order they take their locks.
const MOST_ORDERS: usize = 8;

// A thread that waits for a lock, and who has that.
#[derive(Clone, Copy)]
struct Waiting {
    thread: usize,
    wanted: LockNo,
    owner: usize,
}

// What a thread waits for, where that is a lock that a thread has.
fn waiting_of(standing: &Standing, thread: usize) -> Option<Waiting> {
    let next = standing.nexts.get(thread)?.as_ref()?;
    let SyncOp::Lock(wanted) = &next.sync else {
        return None;
    };
    let owner = *standing.owners.get(wanted.0 as usize)?;
    Some(Waiting {
        thread,
        wanted: *wanted,
        owner: owner?,
    })
}

// The threads from this one on, each of which waits for a lock of the one after it, where they lead back to it.
fn circle_from(
    alloc: Global,
    standing: &Standing,
    thread: usize,
) -> Result<Option<Vec<Waiting>>, AllocError> {
    let mut circle = Vec::new(alloc);
    let mut at = thread;
    for _ in 0..standing.nexts.len() {
        let Some(waiting) = waiting_of(standing, at) else {
            return Ok(None);
        };
        let owner = waiting.owner;
        circle.push(waiting)?;
        if owner == thread {
            return Ok(Some(circle));
        }
        at = owner;
    }
    Ok(None)
}

/// Appends after a word that a thread takes one lock before another. The error is that memory is out.
pub fn push_order(
    text: &mut Vec<u8>,
    heads: &[Head],
    word: &[u8],
    thread: u64,
    held: LockNo,
    wanted: LockNo,
) -> Result<(), AllocError> {
    push_pieces(text, &[Word(word), Number(thread), Word(b" takes ")])?;
    push_lock(text, heads, held)?;
    text.extend_from_slice(b" before ")?;
    push_lock(text, heads, wanted)
}

// Appends in which order each thread of a circle takes its locks: the one for which the thread before it waits, and then
// the one for which it waits.
fn push_orders(text: &mut Vec<u8>, heads: &[Head], circle: &[Waiting]) -> Result<(), AllocError> {
    let Some(last) = circle.last() else {
        return Ok(());
    };
    let mut held = last.wanted;
    let mut between: &[u8] = b"hint: thread ";
    let mut told: usize = 0;
    for waiting in circle {
        if told < MOST_ORDERS {
            let thread = waiting.thread as u64;
            push_order(text, heads, between, thread, held, waiting.wanted)?;
        }
        held = waiting.wanted;
        between = b", thread ";
        told = told.saturating_add(1);
    }
    let rest: &[u8] = if told > MOST_ORDERS {
        b", and so on"
    } else {
        b""
    };
    push_pieces(
        text,
        &[
            Word(rest),
            Word(b": threads that all take their locks in one order do not wait in a circle\n"),
        ],
    )
}

/// Appends in which order threads take their locks that wait for one another's in a circle, of the first circle of more than
/// one thread. The error is that memory is out.
pub fn push_circle(
    alloc: Global,
    text: &mut Vec<u8>,
    heads: &[Head],
    standing: &Standing,
) -> Result<(), AllocError> {
    for thread in 0..standing.nexts.len() {
        if let Some(circle) = circle_from(alloc, standing, thread)? {
            if circle.len() > 1 {
                return push_orders(text, heads, &circle);
            }
        }
    }
    Ok(())
}
