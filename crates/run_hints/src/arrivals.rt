// How often threads came to the barriers at which a run is stuck, and in which lines.

use crate::loops::{Place, loops_at, push_loops};
use crate::statements::statements_of;
use crate::threads::Tasks;
use crate::words::put_once;
use gp_base::Name;
use one_thread::Step;
use run_standing::Standing;
use run_views::push_labelled;
use std::alloc::{AllocError, Global};
use task_ast::{Head, Program, SyncOp, TaskText, What};
use text_pieces::Piece::{Number, Word};
use text_pieces::push_pieces;

// How many stretches of thread numbers are told of a barrier, and how many of its lines.
const MOST_STRETCHES: usize = 8;

const MOST_LINES: usize = 8;

// Threads from one number to another that came to a barrier equally often.
#[derive(Clone, Copy)]
struct Arrivals {
    from: usize,
    to: usize,
    count: u32,
}

// Whether a synchronisation is at the barrier of this number.
fn is_barrier(sync: &SyncOp, number: u32) -> bool {
    match sync {
        SyncOp::Barrier(other) => *other == number,
        _ => false,
    }
}

/// Whether a thread stands at the barrier of this number.
pub fn is_waited_at(standing: &Standing, barrier: u32) -> bool {
    for next in standing.nexts.as_slice() {
        if let Some(next) = next {
            if is_barrier(&next.sync, barrier) {
                return true;
            }
        }
    }
    false
}

fn count_one(counts: &mut Vec<u32>, thread: usize) {
    if let Some(count) = counts.get_mut(thread) {
        *count = count.saturating_add(1);
    }
}

/// How often each thread came to a barrier, by its number. The error is that memory is out.
pub fn arrivals_at(
    alloc: Global,
    order: &[Step],
    standing: &Standing,
    barrier: u32,
) -> Result<Vec<u32>, AllocError> {
    let mut counts = Vec::from_elem(alloc, 0, standing.nexts.len())?;
    for step in order {
        if is_barrier(&step.begins.sync, barrier) {
            count_one(&mut counts, step.thread.0 as usize);
        }
    }
    let mut thread: usize = 0;
    for next in standing.nexts.as_slice() {
        if let Some(next) = next {
            if is_barrier(&next.sync, barrier) {
                count_one(&mut counts, thread);
            }
        }
        thread = thread.saturating_add(1);
    }
    Ok(counts)
}

// Lets the last of the stretches go on to a thread that came as often as its threads did, or begins one.
fn add_thread(stretches: &mut Vec<Arrivals>, thread: usize, count: u32) -> Result<(), AllocError> {
    let last = stretches.len().saturating_sub(1);
    if let Some(stretch) = stretches.get_mut(last) {
        if stretch.count == count {
            stretch.to = thread;
            return Ok(());
        }
    }
    stretches.push(Arrivals {
        from: thread,
        to: thread,
        count,
    })?;
    Ok(())
}

fn stretches_of(alloc: Global, counts: &[u32]) -> Result<Vec<Arrivals>, AllocError> {
    let mut stretches = Vec::new(alloc);
    let mut thread: usize = 0;
    for count in counts {
        add_thread(&mut stretches, thread, *count)?;
        thread = thread.saturating_add(1);
    }
    Ok(stretches)
}

// Appends how often the threads of a stretch came.
fn push_stretch(text: &mut Vec<u8>, between: &[u8], stretch: Arrivals) -> Result<(), AllocError> {
    let count = Number(u64::from(stretch.count));
    let (from, to) = (Number(stretch.from as u64), Number(stretch.to as u64));
    if stretch.from == stretch.to {
        return push_pieces(text, &[Word(between), count, Word(b" by thread "), from]);
    }
    push_pieces(
        text,
        &[
            Word(between),
            count,
            Word(b" by threads "),
            from,
            Word(b" to "),
            to,
        ],
    )
}

// Appends how often the threads came that came to a barrier of this name.
fn push_stretches(
    text: &mut Vec<u8>,
    name: &Name,
    stretches: &[Arrivals],
) -> Result<(), AllocError> {
    text.extend_from_slice(b"hint: arrivals at barrier ")?;
    text.extend_from_slice(name.as_slice())?;
    let mut between: &[u8] = b": ";
    let mut told: usize = 0;
    for stretch in stretches {
        if stretch.count > 0 {
            if told == MOST_STRETCHES {
                return text.extend_from_slice(b", and so on\n");
            }
            push_stretch(text, between, *stretch)?;
            between = b", ";
            told = told.saturating_add(1);
        }
    }
    text.extend_from_slice(b"\n")
}

// Whether some thread came more than once.
fn some_came_again(counts: &[u32]) -> bool {
    for count in counts {
        if *count > 1 {
            return true;
        }
    }
    false
}

// The lines of a task with a barrier of this name.
fn barrier_lines(alloc: Global, task: &TaskText, name: &Name) -> Result<Vec<u32>, AllocError> {
    let mut lines = Vec::new(alloc);
    for stmt in &statements_of(alloc, task)? {
        if let What::Barrier(other) = &stmt.what {
            if other.as_slice() == name.as_slice() {
                put_once(&mut lines, stmt.line)?;
            }
        }
    }
    Ok(lines)
}

// Appends a line of a task with a barrier, the first that is told or a later one, and the loops around it.
fn push_line(
    alloc: Global,
    text: &mut Vec<u8>,
    task: &TaskText,
    line: u32,
    is_first: bool,
) -> Result<(), AllocError> {
    let word: &[u8] = if is_first {
        b" stands in line "
    } else {
        b"; in line "
    };
    push_labelled(text, word, line)?;
    push_loops(text, &loops_at(alloc, task, Place::Subthread(line))?)
}

// Appends the lines of a task with a barrier of this name, and the loops around each, after so many lines of other tasks; and
// gives how many there are with these.
fn push_task(
    alloc: Global,
    text: &mut Vec<u8>,
    task: &TaskText,
    name: &Name,
    before: usize,
) -> Result<usize, AllocError> {
    let mut told = before;
    for line in &barrier_lines(alloc, task, name)? {
        if told < MOST_LINES {
            push_line(alloc, text, task, *line, told == 0)?;
        }
        told = told.saturating_add(1);
    }
    Ok(told)
}

// Appends in which lines the tasks of a run have a barrier of this name, and in which loops.
fn push_lines(
    alloc: Global,
    text: &mut Vec<u8>,
    program: &Program,
    tasks: &Tasks,
    name: &Name,
) -> Result<(), AllocError> {
    text.extend_from_slice(b"hint: barrier ")?;
    text.extend_from_slice(name.as_slice())?;
    let mut told: usize = 0;
    let mut number: u32 = 0;
    for task in program.tasks.as_slice() {
        if tasks.are_run(number) {
            told = push_task(alloc, text, task, name, told)?;
        }
        number = number.saturating_add(1);
    }
    text.extend_from_slice(if told > MOST_LINES {
        b"; and so on\n"
    } else {
        b"\n"
    })
}

// Appends how often the threads came to a barrier of this name, and where it stands, where one came more than once.
fn push_one(
    alloc: Global,
    text: &mut Vec<u8>,
    program: &Program,
    tasks: &Tasks,
    name: &Name,
    counts: &[u32],
) -> Result<(), AllocError> {
    if !some_came_again(counts) {
        return Ok(());
    }
    push_stretches(text, name, &stretches_of(alloc, counts)?)?;
    push_lines(alloc, text, program, tasks, name)
}

/// Appends of each barrier at which threads stand how often each thread came to it, where one came more than once, and in which
/// lines and loops it stands. The error is that memory is out.
pub fn push_arrivals(
    alloc: Global,
    text: &mut Vec<u8>,
    program: &Program,
    tasks: &Tasks,
    order: &[Step],
    standing: &Standing,
) -> Result<(), AllocError> {
    let mut barrier: u32 = 0;
    for head in program.heads.as_slice() {
        if let Head::BarrierHead { name, .. } = head {
            if is_waited_at(standing, barrier) {
                let counts = arrivals_at(alloc, order, standing, barrier)?;
                push_one(alloc, text, program, tasks, name, &counts)?;
            }
            barrier = barrier.saturating_add(1);
        }
    }
    Ok(())
}
