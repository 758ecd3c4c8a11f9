// The threads of a run: which task each of them runs, and its control variables.

use gp_base::{Loc, Name, ThreadNo};
use one_thread::Step;
use run_views::push_labelled;
use std::alloc::{AllocError, Global};
use task_ast::{Param, Program, SyncOp, TaskText};
use text_pieces::Piece::{Signed, Word};
use text_pieces::push_pieces;

/// The thread that a subthread forked, whose registers it writes beside its own.
pub fn child_of(step: &Step) -> Option<ThreadNo> {
    match step.foot.writes.get(1) {
        Some(Loc::Regs(child)) => Some(*child),
        _ => None,
    }
}

/// The tasks of a run's threads, by the numbers of both: `main`, and that of each fork.
#[derive(Drop)]
pub struct Tasks {
    numbers: Vec<u32>,
}

impl Tasks {
    /// The tasks of the threads that these subthreads forked. The error is that memory is out.
    pub fn new(alloc: Global, program: &Program, order: &[Step]) -> Result<Tasks, AllocError> {
        let mut numbers = Vec::new(alloc);
        numbers.push(main_number(program))?;
        for step in order {
            if let SyncOp::Fork { task, .. } = &step.begins.sync {
                numbers.push(*task)?;
            }
        }
        Ok(Tasks { numbers })
    }

    /// The task of a thread.
    pub fn task_of<'a>(&self, program: &'a Program, thread: ThreadNo) -> Option<&'a TaskText> {
        let number = *self.numbers.get(thread.0 as usize)?;
        program.tasks.get(number as usize)
    }

    /// The number of the task of a thread.
    pub fn number_of(&self, thread: ThreadNo) -> Option<u32> {
        self.numbers.get(thread.0 as usize).copied()
    }

    /// How many threads there are.
    pub fn count(&self) -> usize {
        self.numbers.len()
    }

    /// Whether a thread runs the task of this number.
    pub fn are_run(&self, task: u32) -> bool {
        self.numbers.contains(&task)
    }
}

// The number of the task `main`.
fn main_number(program: &Program) -> u32 {
    let mut number: u32 = 0;
    for task in program.tasks.as_slice() {
        if task.name.as_slice() == b"main".as_slice() {
            return number;
        }
        number = number.saturating_add(1);
    }
    number
}

/// Appends a variable with its value.
pub fn push_variable<'a>(
    text: &mut Vec<u8>,
    between: &'a [u8],
    name: &'a Name,
    value: i64,
) -> Result<(), AllocError> {
    push_pieces(
        text,
        &[
            Word(between),
            Word(name.as_slice()),
            Word(b" = "),
            Signed(value),
        ],
    )
}

/// Appends variables with these values, the first after a word. The error is that memory is out.
pub fn push_variables(
    text: &mut Vec<u8>,
    word: &[u8],
    names: &[&Name],
    values: &[i64],
) -> Result<(), AllocError> {
    let mut between = word;
    let mut place: usize = 0;
    for name in names {
        if let Some(value) = values.get(place) {
            push_variable(text, between, name, *value)?;
        }
        between = b", ";
        place = place.saturating_add(1);
    }
    Ok(())
}

/// Appends the control variables of a thread as a line, where it has any.
pub fn push_names(
    text: &mut Vec<u8>,
    thread: ThreadNo,
    names: &[(Name, i64)],
) -> Result<(), AllocError> {
    if names.is_empty() {
        return Ok(());
    }
    push_labelled(text, b"thread ", thread.0)?;
    let mut between: &[u8] = b": ";
    for pair in names {
        push_variable(text, between, &pair.0, pair.1)?;
        between = b", ";
    }
    text.extend_from_slice(b"\n")
}

/// The control parameters of a task, in declared order. The error is that memory is out.
pub fn parameters_of<'a>(alloc: Global, task: &'a TaskText) -> Result<Vec<&'a Name>, AllocError> {
    let mut names = Vec::new(alloc);
    for param in task.params.as_slice() {
        if let Param::Ctl(name) = param {
            names.push(name)?;
        }
    }
    Ok(names)
}

/// The control variables of a task, its parameters first, in declared order. The error is that memory is out.
pub fn controls_of<'a>(alloc: Global, task: &'a TaskText) -> Result<Vec<&'a Name>, AllocError> {
    let mut names = parameters_of(alloc, task)?;
    for vars in task.vars.as_slice() {
        for param in vars.names.as_slice() {
            if let Param::Ctl(name) = param {
                names.push(name)?;
            }
        }
    }
    Ok(names)
}

/// Appends the control variables of a task with these values, where there are as many.
pub fn push_values(
    alloc: Global,
    text: &mut Vec<u8>,
    task: &TaskText,
    values: &[i64],
) -> Result<(), AllocError> {
    let names = controls_of(alloc, task)?;
    if names.len() != values.len() {
        return Ok(());
    }
    push_variables(text, b": ", &names, values)
}
