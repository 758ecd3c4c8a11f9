// The loops around a place.

use run_counts::Loop;
use run_views::push_labelled;
use std::alloc::{AllocError, Global};
use task_ast::{Stmt, TaskText, What};

/// A place in a line: a loop, a statement that begins a subthread, or any statement.
#[derive(Clone, Copy)]
pub enum Place {
    Loop(u32),
    Subthread(u32),
    Statement(u32),
}

// Whether a statement begins a subthread.
fn begins_one(what: &What) -> bool {
    match what {
        What::Lock(_, _) => true,
        What::Unlock(_, _) => true,
        What::Fork(_, _, _) => true,
        What::Join(_, _) => true,
        What::Barrier(_) => true,
        What::Settle(_, _) => true,
        _ => false,
    }
}

// Whether a statement is at a place.
fn is_at(stmt: &Stmt, place: Place) -> bool {
    match place {
        Place::Loop(line) => stmt.line == line && matches!(stmt.what, What::While(_, _)),
        Place::Subthread(line) => stmt.line == line && begins_one(&stmt.what),
        Place::Statement(line) => stmt.line == line,
    }
}

// Puts the loops around the first statement at a place, the outermost first, after others, if it is in this block. A loop at the place is the last of them.
fn push_around<'a>(
    loops: &mut Vec<Loop<'a>>,
    block: &'a [Stmt],
    place: Place,
) -> Result<bool, AllocError> {
    for stmt in block {
        let found = match &stmt.what {
            What::While(condition, body) => {
                loops.push(Loop {
                    line: stmt.line,
                    condition,
                    body: body.as_slice(),
                })?;
                let found = is_at(stmt, place) || push_around(loops, body.as_slice(), place)?;
                if !found {
                    loops.pop();
                }
                found
            }
            What::If(_, first, second) => {
                push_around(loops, first.as_slice(), place)?
                    || push_around(loops, second.as_slice(), place)?
            }
            _ => is_at(stmt, place),
        };
        if found {
            return Ok(true);
        }
    }
    Ok(false)
}

/// The loops of a task around the first statement at a place, the outermost first; a loop at the place is the last of them. The error is that memory is out.
pub fn loops_at<'a>(
    alloc: Global,
    task: &'a TaskText,
    place: Place,
) -> Result<Vec<Loop<'a>>, AllocError> {
    let mut loops = Vec::new(alloc);
    push_around(&mut loops, task.body.as_slice(), place)?;
    Ok(loops)
}

/// Appends in which loops the last of these stands, if it stands in any. The error is that memory is out.
pub fn push_outer(text: &mut Vec<u8>, loops: &[Loop<'_>]) -> Result<(), AllocError> {
    let count = loops.len().saturating_sub(1);
    let mut between: &[u8] = if count == 1 {
        b", in that of line "
    } else {
        b", in those of the lines "
    };
    let mut told: usize = 0;
    for around in loops {
        if told == count {
            return Ok(());
        }
        push_labelled(text, between, around.line)?;
        between = b", ";
        told = told.saturating_add(1);
    }
    Ok(())
}

/// Appends in which loop a place stands, and in which ones that does, if there are any. The error is that memory is out.
pub fn push_loops(text: &mut Vec<u8>, loops: &[Loop<'_>]) -> Result<(), AllocError> {
    if let Some(inner) = loops.get(loops.len().saturating_sub(1)) {
        push_labelled(text, b", in the loop in line ", inner.line)?;
    }
    push_outer(text, loops)
}
