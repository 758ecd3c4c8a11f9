// What is told of a run that is stuck, after its front.

use crate::halted::Halted;
use crate::indices::{env_of, push_index};
use gp_base::{LockNo, Name, ThreadNo, Why};
use one_thread::Step;
use run_counts::Loop;
use run_hints::{
    Place, plural, push_alike, push_arrivals, push_chain, push_circle, push_ended, push_forks,
    push_gathered, push_kept, push_loops, push_names, push_own_join, put_controls, statements_of,
};
use run_standing::Standing;
use run_views::{push_between, push_lock};
use std::alloc::{AllocError, Global};
use task_ast::{Head, Next, SyncOp, TaskText, What};
use text_pieces::Piece::{Number, Signed, Word};
use text_pieces::push_pieces;

// How many threads have their control variables told, and of how many locks it is told who holds them.
const MOST_VARIABLES: usize = 12;

const MOST_TOLD: usize = 20;

// A lock: who holds it, in which line it was last taken, and whether somebody waits for it.
#[derive(Clone, Copy)]
struct Holding {
    owner: Option<usize>,
    line: u32,
    is_wanted: bool,
}

// Notes of locks, by their numbers, in which lines they were last taken.
fn note_lines(holdings: &mut [Holding], order: &[Step]) {
    for step in order {
        if let SyncOp::Lock(lock) = &step.begins.sync {
            if let Some(holding) = holdings.get_mut(lock.0 as usize) {
                holding.line = step.begins.line;
            }
        }
    }
}

// Notes of locks, by their numbers, for which of them somebody waits.
fn note_wanted(holdings: &mut [Holding], standing: &Standing) {
    for next in &standing.nexts {
        if let Some(
            Next {
                sync: SyncOp::Lock(lock),
                ..
            },
        ) = next
        {
            if let Some(holding) = holdings.get_mut(lock.0 as usize) {
                holding.is_wanted = true;
            }
        }
    }
}

// All locks, by their numbers.
fn holdings_of(
    alloc: Global,
    order: &[Step],
    standing: &Standing,
) -> Result<Vec<Holding>, AllocError> {
    let mut holdings = Vec::new(alloc);
    for owner in &standing.owners {
        holdings.push(Holding {
            owner: *owner,
            line: 0,
            is_wanted: false,
        })?;
    }
    note_lines(&mut holdings, order);
    note_wanted(&mut holdings, standing);
    Ok(holdings)
}

// How many of these locks are held.
fn held_count(holdings: &[Holding]) -> usize {
    let mut count: usize = 0;
    for holding in holdings {
        if holding.owner.is_some() {
            count = count.saturating_add(1);
        }
    }
    count
}

// Appends who holds a lock, and where it was taken.
fn push_holding(
    text: &mut Vec<u8>,
    heads: &[Head],
    lock: LockNo,
    owner: usize,
    line: u32,
) -> Result<(), AllocError> {
    push_pieces(
        text,
        &[Word(b"thread "), Number(owner as u64), Word(b" holds ")],
    )?;
    push_lock(text, heads, lock)?;
    push_between(text, b", taken in line ", line, b"\n")
}

// Appends who holds which of these locks; where many are held, the first of those that somebody waits for. Answers how
// many are left.
fn push_held(
    text: &mut Vec<u8>,
    heads: &[Head],
    holdings: &[Holding],
) -> Result<usize, AllocError> {
    let count = held_count(holdings);
    let are_few = count <= MOST_TOLD;
    let mut told: usize = 0;
    let mut lock: u32 = 0;
    for holding in holdings {
        if let Some(owner) = holding.owner {
            if (are_few || holding.is_wanted) && told < MOST_TOLD {
                push_holding(text, heads, LockNo(lock), owner, holding.line)?;
                told = told.saturating_add(1);
            }
        }
        lock = lock.saturating_add(1);
    }
    Ok(count.saturating_sub(told))
}

// Appends who holds which locks, and how many more are held.
fn push_holders(
    alloc: Global,
    text: &mut Vec<u8>,
    heads: &[Head],
    order: &[Step],
    standing: &Standing,
) -> Result<(), AllocError> {
    let left = push_held(text, heads, &holdings_of(alloc, order, standing)?)? as u64;
    if left == 0 {
        return Ok(());
    }
    let held: &[u8] = if left == 1 {
        b" more lock is held\n"
    } else {
        b" more locks are held\n"
    };
    push_pieces(text, &[Number(left), Word(held)])
}

// What the thread does next.
fn next_of(standing: &Standing, thread: ThreadNo) -> Option<&Next> {
    standing.nexts.get(thread.0 as usize)?.as_ref()
}

// Whether a thread waits for something.
fn waits(standing: &Standing, thread: ThreadNo) -> bool {
    match next_of(standing, thread) {
        Some(next) => !next.sync.is_end(),
        None => false,
    }
}

// Appends the control variables of the threads that have not ended and have some, or of the first of them.
fn push_waiting(text: &mut Vec<u8>, standing: &Standing) -> Result<(), AllocError> {
    let mut told: usize = 0;
    let mut left: u64 = 0;
    let mut thread = ThreadNo(0);
    for names in &standing.names {
        if waits(standing, thread) && !names.is_empty() {
            if told < MOST_VARIABLES {
                push_names(text, thread, names.as_slice())?;
                told = told.saturating_add(1);
            } else {
                left = left.saturating_add(1);
            }
        }
        thread = ThreadNo(thread.0.saturating_add(1));
    }
    if left == 0 {
        return Ok(());
    }
    push_pieces(
        text,
        &[
            Word(b"the variables of "),
            Number(left),
            Word(b" more thread"),
            plural(left),
            Word(b" are not told\n"),
        ],
    )
}

// Appends which thread is joined that is not there.
fn push_joined(
    text: &mut Vec<u8>,
    thread: ThreadNo,
    standing: &Standing,
) -> Result<(), AllocError> {
    let Some(
        Next {
            sync: SyncOp::Join(joined),
            ..
        },
    ) = next_of(standing, thread)
    else {
        return Ok(());
    };
    let threads = standing.nexts.len() as u64;
    if threads == 1 {
        let end = b" is joined; there is 1 thread, 0, and nothing was forked\n";
        return push_pieces(text, &[Word(b"thread "), Signed(*joined), Word(end)]);
    }
    let forked = threads.saturating_sub(1);
    push_pieces(
        text,
        &[
            Word(b"thread "),
            Signed(*joined),
            Word(b" is joined; there are "),
            Number(threads),
            Word(b" threads, 0 to "),
            Number(forked),
            Word(b", of which "),
            Number(forked),
            Word(if forked == 1 {
                b" was forked\n"
            } else {
                b" were forked\n"
            }),
        ],
    )
}

// The control variables that the joins of a task in a line name.
fn joined_controls<'a>(
    alloc: Global,
    task: &'a TaskText,
    line: u32,
) -> Result<Vec<&'a Name>, AllocError> {
    let mut names = Vec::new(alloc);
    for stmt in &statements_of(alloc, task)? {
        if let What::Join(e, _) = &stmt.what {
            if stmt.line == line {
                put_controls(&mut names, e)?;
            }
        }
    }
    Ok(names)
}

// Appends which loop lets the number of a thread come so far that is joined in a line, and the variables of the thread that
// joins it.
fn push_join_bound(
    alloc: Global,
    text: &mut Vec<u8>,
    halted: Halted<'_>,
    thread: ThreadNo,
    line: u32,
) -> Result<(), AllocError> {
    let Some(task) = halted.tasks.task_of(halted.program(), thread) else {
        return Ok(());
    };
    let names = joined_controls(alloc, task, line)?;
    let env = env_of(alloc, halted.request, halted.standing, thread)?;
    halted.push_given(alloc, text, (task, thread, line), &names, &env)?;
    push_names(text, thread, env.names.as_slice())
}

// Appends where a thread forks, if it does so in loops.
fn push_forking(
    text: &mut Vec<u8>,
    thread: ThreadNo,
    line: u32,
    loops: &[Loop<'_>],
) -> Result<(), AllocError> {
    if loops.is_empty() {
        return Ok(());
    }
    push_pieces(
        text,
        &[
            Word(b"thread "),
            Number(u64::from(thread.0)),
            Word(b" forks in line "),
            Number(u64::from(line)),
        ],
    )?;
    push_loops(text, loops)?;
    text.extend_from_slice(b"\n")
}

// Appends where a thread forks that many threads led to, one by another: it is not a loop that goes on.
fn push_deep(
    alloc: Global,
    text: &mut Vec<u8>,
    halted: Halted<'_>,
    thread: ThreadNo,
    line: u32,
) -> Result<(), AllocError> {
    halted.push_forked(alloc, text, thread)?;
    let loops = halted.loops_of(alloc, thread, Place::Subthread(line))?;
    push_forking(text, thread, line, &loops)?;
    halted.push_names_of(text, thread)
}

// Appends where a thread forks one thread too many, in which loops, and which threads led to it.
fn push_too_many(
    alloc: Global,
    text: &mut Vec<u8>,
    halted: Halted<'_>,
    thread: ThreadNo,
    line: u32,
) -> Result<(), AllocError> {
    let threads = halted.standing.nexts.len();
    push_between(
        text,
        b"",
        threads,
        b" threads are there, the most there may be\n",
    )?;
    push_forks(alloc, text, halted.order)?;
    if push_chain(alloc, text, halted.order, thread)? {
        return push_deep(alloc, text, halted, thread, line);
    }
    let loops = halted.loops_of(alloc, thread, Place::Subthread(line))?;
    push_forking(text, thread, line, &loops)?;
    halted.push_turned(alloc, text, thread, &loops)?;
    Ok(())
}

// Appends for what the threads of a deadlock wait, and who would have to come.
fn push_waits(
    alloc: Global,
    text: &mut Vec<u8>,
    heads: &[Head],
    halted: Halted<'_>,
) -> Result<(), AllocError> {
    let (order, standing) = (halted.order, halted.standing);
    push_alike(alloc, text, heads, standing)?;
    push_ended(alloc, text, order, standing)?;
    push_gathered(alloc, text, heads, order, standing)?;
    push_arrivals(alloc, text, halted.program(), halted.tasks, order, standing)?;
    push_own_join(text, standing)
}

// Appends which locks are held in a deadlock, and the control variables of its threads.
fn push_locks(
    alloc: Global,
    text: &mut Vec<u8>,
    heads: &[Head],
    halted: Halted<'_>,
) -> Result<(), AllocError> {
    let standing = halted.standing;
    push_kept(text, heads, standing)?;
    push_holders(alloc, text, heads, halted.order, standing)?;
    push_circle(alloc, text, heads, standing)?;
    push_waiting(text, standing)
}

/// Appends what is told of a run of a program with this text that is stuck at a thread and line, after its front. The error
/// is that memory is out.
pub fn push_stuck_details(
    alloc: Global,
    text: &mut Vec<u8>,
    halted: Halted<'_>,
    source: &[u8],
    stuck: (Why, ThreadNo, u32),
) -> Result<(), AllocError> {
    let (why, thread, line) = stuck;
    match why {
        Why::Deadlock => {
            let heads = halted.program().heads.as_slice();
            push_waits(alloc, text, heads, halted)?;
            push_locks(alloc, text, heads, halted)
        }
        Why::Index => push_index(alloc, text, halted, source, thread, line),
        Why::Join => {
            push_joined(text, thread, halted.standing)?;
            halted.push_left_out(alloc, text)?;
            push_join_bound(alloc, text, halted, thread, line)
        }
        Why::Threads => push_too_many(alloc, text, halted, thread, line),
    }
}
