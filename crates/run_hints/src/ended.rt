// The threads that have ended, and how many come to a barrier.

use crate::arrivals::{arrivals_at, is_waited_at};
use crate::words::{at, push_stretch};
use gp_base::Name;
use one_thread::Step;
use run_standing::Standing;
use run_views::push_between;
use std::alloc::{AllocError, Global};
use task_ast::{Head, Next, SyncOp, natural};
use text_pieces::Piece::{Number, Word};
use text_pieces::push_pieces;

// How many stretches of threads that have ended are told by their numbers.
const MOST_ENDED: usize = 8;

// Threads from one number to another that have ended, with the line of the last synchronisation of each, or 0.
#[derive(Clone, Copy)]
struct Ended {
    from: u32,
    to: u32,
    line: u32,
}

fn is_at_barrier(next: &Option<Next>) -> bool {
    match next {
        Some(next) => matches!(next.sync, SyncOp::Barrier(_)),
        None => false,
    }
}

fn has_ended(next: &Option<Next>) -> bool {
    match next {
        Some(next) => next.sync.is_end(),
        None => false,
    }
}

// Whether somebody waits at a barrier.
fn some_at_barrier(nexts: &[Option<Next>]) -> bool {
    for next in nexts {
        if is_at_barrier(next) {
            return true;
        }
    }
    false
}

// The lines of the last synchronisations of so many threads, by their numbers; 0 where a thread has none.
fn last_lines(alloc: Global, order: &[Step], count: usize) -> Result<Vec<u32>, AllocError> {
    let mut lines = Vec::from_elem(alloc, 0, count)?;
    for step in order {
        if let Some(line) = lines.get_mut(step.thread.0 as usize) {
            *line = step.begins.line;
        }
    }
    Ok(lines)
}

// Lets the last of the stretches go on to a thread, or begins one.
fn add_thread(stretches: &mut Vec<Ended>, thread: u32, line: u32) -> Result<(), AllocError> {
    let last = stretches.len().saturating_sub(1);
    if let Some(stretch) = stretches.get_mut(last) {
        if stretch.line == line && stretch.to.saturating_add(1) == thread {
            stretch.to = thread;
            return Ok(());
        }
    }
    stretches.push(Ended {
        from: thread,
        to: thread,
        line,
    })?;
    Ok(())
}

// The threads that have ended.
fn ended_of(alloc: Global, order: &[Step], standing: &Standing) -> Result<Vec<Ended>, AllocError> {
    let nexts = standing.nexts.as_slice();
    let lines = last_lines(alloc, order, nexts.len())?;
    let mut stretches = Vec::new(alloc);
    let mut thread: u32 = 0;
    for next in nexts {
        if has_ended(next) {
            add_thread(&mut stretches, thread, at(&lines, thread as usize))?;
        }
        thread = thread.saturating_add(1);
    }
    Ok(stretches)
}

// Appends threads that have ended, the first or others, with the line of the last synchronisation of each.
fn push_threads(text: &mut Vec<u8>, is_first: bool, ended: Ended) -> Result<(), AllocError> {
    let (before, after): (&[u8], &[u8]) = match (is_first, ended.from == ended.to) {
        (true, true) => (b"hint: thread ", b" has ended"),
        (true, false) => (b"hint: threads ", b" have ended"),
        (false, true) => (b"; thread ", b""),
        (false, false) => (b"; threads ", b""),
    };
    push_stretch(text, before, u64::from(ended.from), u64::from(ended.to))?;
    if ended.line == 0 {
        return push_pieces(text, &[Word(after), Word(b", with no synchronisation")]);
    }
    let line = Number(u64::from(ended.line));
    push_pieces(text, &[Word(after), Word(b", after line "), line])
}

// Appends the first of these stretches as a line, and how many threads the others are.
fn push_stretches(text: &mut Vec<u8>, stretches: &[Ended]) -> Result<(), AllocError> {
    let mut told: usize = 0;
    let mut left: u64 = 0;
    for ended in stretches {
        if told < MOST_ENDED {
            push_threads(text, told == 0, *ended)?;
            told = told.saturating_add(1);
        } else {
            left = left.saturating_add(u64::from(ended.to.saturating_sub(ended.from)));
            left = left.saturating_add(1);
        }
    }
    if left == 0 {
        return text.extend_from_slice(b"\n");
    }
    push_between(text, b"; and ", left, b" more\n")
}

/// Appends which threads have ended, each with the line of its last synchronisation, of the first stretches of them. The error
/// is that memory is out.
pub fn push_ended_threads(
    alloc: Global,
    text: &mut Vec<u8>,
    order: &[Step],
    standing: &Standing,
) -> Result<(), AllocError> {
    let stretches = ended_of(alloc, order, standing)?;
    if stretches.is_empty() {
        return Ok(());
    }
    push_stretches(text, &stretches)
}

/// Appends which threads have ended, where others wait at a barrier. The error is that memory is out.
pub fn push_ended(
    alloc: Global,
    text: &mut Vec<u8>,
    order: &[Step],
    standing: &Standing,
) -> Result<(), AllocError> {
    if !some_at_barrier(standing.nexts.as_slice()) {
        return Ok(());
    }
    push_ended_threads(alloc, text, order, standing)
}

// How many threads came to a barrier.
fn count_of(
    alloc: Global,
    order: &[Step],
    standing: &Standing,
    barrier: u32,
) -> Result<u64, AllocError> {
    let mut count: u64 = 0;
    for arrivals in &arrivals_at(alloc, order, standing, barrier)? {
        if *arrivals > 0 {
            count = count.saturating_add(1);
        }
    }
    Ok(count)
}

// Appends that a barrier is of so many threads, and how many others there are.
fn push_unlike<'a>(
    text: &mut Vec<u8>,
    name: &'a Name,
    wanted: u64,
    count: u64,
    what: &'a [u8],
) -> Result<(), AllocError> {
    push_pieces(
        text,
        &[
            Word(b"hint: barrier "),
            Word(name.as_slice()),
            Word(b" is of "),
            Number(wanted),
            Word(b" threads, and "),
            Word(what),
            Number(count),
            Word(b"\n"),
        ],
    )
}

// Appends a barrier of so many threads, where the run has fewer, or more came to it.
fn push_barrier(
    text: &mut Vec<u8>,
    name: &Name,
    wanted: u64,
    threads: u64,
    came: u64,
) -> Result<(), AllocError> {
    if threads < wanted {
        push_unlike(text, name, wanted, threads, b"the run has ")
    } else if came > wanted {
        push_unlike(text, name, wanted, came, b"so many come to it: ")
    } else {
        Ok(())
    }
}

/// Appends the barriers at which threads stand and to which more threads come than they are of, or that are of more threads
/// than the run has. The error is that memory is out.
pub fn push_gathered(
    alloc: Global,
    text: &mut Vec<u8>,
    heads: &[Head],
    order: &[Step],
    standing: &Standing,
) -> Result<(), AllocError> {
    let threads = standing.nexts.len() as u64;
    let mut barrier: u32 = 0;
    for head in heads {
        if let Head::BarrierHead { name, number, .. } = head {
            if is_waited_at(standing, barrier) {
                let came = count_of(alloc, order, standing, barrier)?;
                push_barrier(text, name, natural(*number), threads, came)?;
            }
            barrier = barrier.saturating_add(1);
        }
    }
    Ok(())
}
