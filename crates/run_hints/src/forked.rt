// How threads were forked: in which lines, and with which control values.

use crate::bounds::{fed_by, followed};
use crate::loops::{Place, loops_at};
use crate::statements::{is_among, put_controls, statements_of};
use crate::threads::{Tasks, child_of, parameters_of, push_variables};
use gp_base::{Name, ThreadNo};
use one_thread::Step;
use run_views::push_labelled;
use std::alloc::{AllocError, Global};
use task_ast::{Program, Stmt, SyncOp, TaskText};

// These variables, those from which they are computed, and those of the conditions of the loops around a line.
fn sources_of<'a>(
    alloc: Global,
    task: &'a TaskText,
    line: u32,
    names: &[&'a Name],
    statements: &[&'a Stmt],
) -> Result<Vec<&'a Name>, AllocError> {
    let mut sources = followed(alloc, names, statements)?;
    for around in &loops_at(alloc, task, Place::Statement(line))? {
        put_controls(&mut sources, around.condition)?;
    }
    Ok(sources)
}

// Whether one of these names is among others.
fn some_among(names: &[&Name], others: &[&Name]) -> bool {
    for name in names {
        if is_among(others, name) {
            return true;
        }
    }
    false
}

/// Whether a parameter of a task is one of these variables, or one from which they are computed, or stands in the condition
/// of a loop around a line. A number that a feed gives is none. The error is that memory is out.
pub fn is_given<'a>(
    alloc: Global,
    task: &'a TaskText,
    line: u32,
    names: &[&'a Name],
) -> Result<bool, AllocError> {
    let statements = statements_of(alloc, task)?;
    if fed_by(names, &statements, line).is_some() {
        return Ok(false);
    }
    let sources = sources_of(alloc, task, line, names, &statements)?;
    Ok(some_among(&parameters_of(alloc, task)?, &sources))
}

// The subthread that forked a thread.
fn fork_of(order: &[Step], thread: ThreadNo) -> Option<&Step> {
    for step in order {
        if matches!(child_of(step), Some(child) if child.0 == thread.0) {
            return Some(step);
        }
    }
    None
}

// The subthread that forked a thread, and the task of the thread.
fn fork_and_task<'a>(
    program: &'a Program,
    order: &'a [Step],
    tasks: &Tasks,
    thread: ThreadNo,
) -> Option<(&'a Step, &'a TaskText)> {
    let fork = fork_of(order, thread)?;
    let task = tasks.task_of(program, thread)?;
    Some((fork, task))
}

// Appends after a word in which line a thread of this task was forked, with which control values, and by which thread.
fn push_fork(
    alloc: Global,
    text: &mut Vec<u8>,
    word: &[u8],
    task: &TaskText,
    fork: &Step,
) -> Result<(), AllocError> {
    push_labelled(text, word, fork.begins.line)?;
    if let SyncOp::Fork { args, .. } = &fork.begins.sync {
        let names = parameters_of(alloc, task)?;
        push_variables(text, b" with ", &names, args.as_slice())?;
    }
    push_labelled(text, b", by thread ", fork.thread.0)
}

/// Appends how a thread was forked, and how the thread was that did so. Nothing is told of thread 0, nor of one whose task
/// has no control parameter. The error is that memory is out.
pub fn push_forked<'a>(
    alloc: Global,
    text: &mut Vec<u8>,
    program: &'a Program,
    order: &'a [Step],
    tasks: &Tasks,
    thread: ThreadNo,
) -> Result<(), AllocError> {
    let Some((fork, task)) = fork_and_task(program, order, tasks, thread) else {
        return Ok(());
    };
    if parameters_of(alloc, task)?.is_empty() {
        return Ok(());
    }
    push_labelled(text, b"hint: thread ", thread.0)?;
    push_fork(alloc, text, b" was forked in line ", task, fork)?;
    if let Some((fork, task)) = fork_and_task(program, order, tasks, fork.thread) {
        push_fork(alloc, text, b", and that in line ", task, fork)?;
    }
    text.extend_from_slice(b"\n")
}
