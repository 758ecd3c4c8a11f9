// Joins in loops that take what threads give back: which threads, and how the loop ended.

use crate::bounds::{Bound, Came, bound_in, came_to, followed, push_loop};
use crate::loops::{Place, loops_at};
use crate::statements::{put_controls, statements_of};
use crate::threads::Tasks;
use crate::words::push_threads;
use gp_base::{Name, ThreadNo};
use one_thread::{Reckon, Step};
use run_counts::{Loop, Turns};
use run_views::push_between;
use std::alloc::{AllocError, Global};
use task_ast::{Env, Expr, Program, Stmt, SyncOp, TaskText, What};

/// A join in a loop, the threads that it takes, and how the condition of the loop ended it.
#[derive(Drop)]
pub struct Taking<'a> {
    line: u32,
    threads: Vec<u32>,
    around: Loop<'a>,
    bound: Option<Bound<'a>>,
    // The loop has one turn before its condition is asked for, and then none or two.
    turns: Turns<'a>,
    came: Option<Came<'a>>,
}

// The thread that joins in a line, where one alone does.
fn joining_thread(order: &[Step], line: u32) -> Option<ThreadNo> {
    let mut found: Option<ThreadNo> = None;
    for step in order {
        if step.begins.line != line || !matches!(step.begins.sync, SyncOp::Join(_)) {
            continue;
        }
        match found {
            Some(thread) if thread.0 != step.thread.0 => return None,
            _ => found = Some(step.thread),
        }
    }
    found
}

// The threads that the join in a line takes, by the lines of the joins that take each thread.
fn taken_in(alloc: Global, taken: &[u32], line: u32) -> Result<Vec<u32>, AllocError> {
    let mut threads = Vec::new(alloc);
    let mut thread: u32 = 0;
    for other in taken {
        if *other == line {
            threads.push(thread)?;
        }
        thread = thread.saturating_add(1);
    }
    Ok(threads)
}

// The innermost loop around the join in a line of a task.
fn loop_at<'a>(
    alloc: Global,
    task: &'a TaskText,
    line: u32,
) -> Result<Option<Loop<'a>>, AllocError> {
    let loops = loops_at(alloc, task, Place::Subthread(line))?;
    Ok(loops.last().copied())
}

// The control variables that the number of the joins in a line names.
fn joined_names<'a>(
    alloc: Global,
    statements: &[&'a Stmt],
    line: u32,
) -> Result<Vec<&'a Name>, AllocError> {
    let mut names = Vec::new(alloc);
    for stmt in statements {
        if let What::Join(e, _) = &stmt.what {
            if stmt.line == line {
                put_controls(&mut names, e)?;
            }
        }
    }
    Ok(names)
}

// The bound of the number that a line of a task joins, by the condition of a loop.
fn bound_of<'a>(
    alloc: Global,
    task: &'a TaskText,
    line: u32,
    around: Loop<'a>,
) -> Result<Option<Bound<'a>>, AllocError> {
    let statements = statements_of(alloc, task)?;
    let names = joined_names(alloc, &statements, line)?;
    let names = followed(alloc, &names, &statements)?;
    Ok(bound_in(&names, around.condition))
}

impl<'a> Taking<'a> {
    /// The join in a line of a run, by the lines of the joins that take each thread; none where it stands in no loop, or several
    /// threads join there. The error is that memory is out.
    pub fn new(
        alloc: Global,
        program: &'a Program,
        order: &'a [Step],
        tasks: &Tasks,
        line: u32,
        taken: &[u32],
    ) -> Result<Option<Taking<'a>>, AllocError> {
        let Some(thread) = joining_thread(order, line) else {
            return Ok(None);
        };
        let Some(task) = tasks.task_of(program, thread) else {
            return Ok(None);
        };
        let Some(around) = loop_at(alloc, task, line)? else {
            return Ok(None);
        };
        let bound = bound_of(alloc, task, line, around)?;
        let turns = Turns::new(alloc, order, thread, &[around])?;
        Ok(Some(Taking {
            line,
            threads: taken_in(alloc, taken, line)?,
            around,
            bound,
            turns,
            came: None,
        }))
    }

    /// The next subthread begins.
    pub fn begin(&mut self) {
        self.turns.begin();
    }

    /// The expressions from here on are those of this line.
    pub fn at(&mut self, line: u32) {
        self.turns.at(line);
    }

    // The turns tell whether it was the condition of the loop that was asked for, and is 0.
    fn is_left(&mut self, e: &Expr, env: &Env) -> bool {
        for turned in self.turns.loops.iter_mut() {
            turned.turns = 1;
        }
        self.turns.of_control(e, env);
        matches!(self.turns.loops.first(), Some(turned) if turned.turns == 0)
    }

    /// A value that names no data variable is asked for in a line.
    pub fn note(&mut self, line: u32, e: &Expr, env: &Env) {
        let Some(bound) = self.bound else {
            return;
        };
        if line == self.around.line && self.is_left(e, env) {
            self.came = came_to(env, bound);
        }
    }

    /// Appends which threads the join takes, and how the loop ended. The error is that memory is out.
    pub fn push(&self, alloc: Global, text: &mut Vec<u8>) -> Result<(), AllocError> {
        push_between(text, b"hint: line ", self.line, b" joins ")?;
        push_threads(alloc, text, &self.threads)?;
        let Some(came) = self.came else {
            return text.extend_from_slice(b"\n");
        };
        let line = self.around.line;
        push_loop(text, b"; the loop in line ", line, came, b", and ")
    }
}
