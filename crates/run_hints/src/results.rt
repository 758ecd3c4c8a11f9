// What threads give back, and the joins that take it.

use crate::statements::statements_of;
use crate::taking::Taking;
use crate::threads::Tasks;
use crate::unset::{GIVEN_BACK, Variable};
use crate::words::{at, put};
use gp_base::{Name, ThreadNo};
use one_thread::{Plainly, Reckon, Step};
use std::alloc::{AllocError, Global};
use task_ast::{Env, Expr, Program, Stmt, SyncOp, What, eval_d};
use text_pieces::Piece::{Number, Word};
use text_pieces::push_pieces;

const RESULT: Variable<'static> = Variable {
    name: GIVEN_BACK,
    is_data: true,
};

// What is known of the lines of joins, and of the tasks: the line in which each first sets what its threads give back, or 0.
#[derive(Drop)]
struct Texts {
    // The lines in which some join puts what a thread gives back into a variable.
    taking: Vec<u32>,
    setting: Vec<u32>,
}

impl Texts {
    // One task more, by its statements.
    fn note(&mut self, statements: &[&Stmt]) -> Result<(), AllocError> {
        let setting = RESULT.setting_line(statements).unwrap_or(0);
        self.setting.push(setting)?;
        for stmt in statements {
            if let What::Join(_, Some(_)) = &stmt.what {
                put(&mut self.taking, stmt.line as usize, stmt.line)?;
            }
        }
        Ok(())
    }
}

// What is known of a program.
fn texts_of(alloc: Global, program: &Program) -> Result<Texts, AllocError> {
    let mut texts = Texts {
        taking: Vec::new(alloc),
        setting: Vec::new(alloc),
    };
    for task in program.tasks.as_slice() {
        texts.note(&statements_of(alloc, task)?)?;
    }
    Ok(texts)
}

// By thread the lines of joins: of the last that takes what it gives back, and of the last that does not. 0 is none.
#[derive(Drop)]
struct Joins {
    taken: Vec<u32>,
    left: Vec<u32>,
}

// The joins of a run.
fn joins_of(alloc: Global, order: &[Step], texts: &Texts) -> Result<Joins, AllocError> {
    let mut joins = Joins {
        taken: Vec::new(alloc),
        left: Vec::new(alloc),
    };
    for step in order {
        let SyncOp::Join(thread) = &step.begins.sync else {
            continue;
        };
        let Ok(thread) = usize::try_from(*thread) else {
            continue;
        };
        let line = step.begins.line;
        if at(&texts.taking, line as usize) == 0 {
            put(&mut joins.left, thread, line)?;
        } else {
            put(&mut joins.taken, thread, line)?;
        }
    }
    Ok(joins)
}

// How what a thread gives back is lost.
#[derive(Clone, Copy)]
enum Loss {
    // It sets it in this line, and is joined in that one.
    Joined { setting: u32, joining: u32 },
    // It sets it in this line, and is joined nowhere.
    Unjoined { setting: u32 },
    // It never sets it, and a join in this line takes it.
    Unset { joining: u32 },
}

impl Joins {
    // How what a thread gives back is lost, if it is, where its task sets it in this line, or in none.
    fn loss_of(&self, thread: usize, setting: u32) -> Option<Loss> {
        let (taken, left) = (at(&self.taken, thread), at(&self.left, thread));
        if setting == 0 && taken != 0 {
            Some(Loss::Unset { joining: taken })
        } else if setting == 0 || taken != 0 {
            None
        } else if left == 0 {
            Some(Loss::Unjoined { setting })
        } else {
            Some(Loss::Joined {
                setting,
                joining: left,
            })
        }
    }
}

// Appends how what a thread gives back is lost.
fn push_loss(text: &mut Vec<u8>, thread: ThreadNo, loss: Loss) -> Result<(), AllocError> {
    let thread = Number(u64::from(thread.0));
    match loss {
        Loss::Joined { setting, joining } => push_pieces(
            text,
            &[
                Word(b"hint: line "),
                Number(u64::from(joining)),
                Word(b" joins thread "),
                thread,
                Word(b" without `into`, so the $ret of line "),
                Number(u64::from(setting)),
                Word(b" is lost\n"),
            ],
        ),
        Loss::Unjoined { setting } => push_pieces(
            text,
            &[
                Word(b"hint: no join takes the $ret of line "),
                Number(u64::from(setting)),
                Word(b" from thread "),
                thread,
                Word(b"\n"),
            ],
        ),
        Loss::Unset { joining } => push_pieces(
            text,
            &[
                Word(b"hint: line "),
                Number(u64::from(joining)),
                Word(b" takes the $ret of thread "),
                thread,
                Word(b", which nothing sets: it is 0\n"),
            ],
        ),
    }
}

// A thread whose task loses what it gives back, the first such of its task.
#[derive(Clone, Copy)]
struct Lost {
    thread: ThreadNo,
    task: u32,
    loss: Loss,
}

// The thread of this number with its task, where it loses what it gives back.
fn lost_by(tasks: &Tasks, texts: &Texts, joins: &Joins, number: usize) -> Option<Lost> {
    let thread = ThreadNo(u32::try_from(number).unwrap_or(0));
    let task = tasks.number_of(thread)?;
    let loss = joins.loss_of(number, at(&texts.setting, task as usize))?;
    Some(Lost { thread, task, loss })
}

// Whether one of these threads is of a task.
fn is_told(lost: &[Lost], task: u32) -> bool {
    for other in lost {
        if other.task == task {
            return true;
        }
    }
    false
}

// The first thread of each task that loses what it gives back.
fn lost_of(
    alloc: Global,
    tasks: &Tasks,
    texts: &Texts,
    joins: &Joins,
) -> Result<Vec<Lost>, AllocError> {
    let mut lost = Vec::new(alloc);
    for number in 1..tasks.count() {
        if let Some(one) = lost_by(tasks, texts, joins, number) {
            if !is_told(&lost, one.task) {
                lost.push(one)?;
            }
        }
    }
    Ok(lost)
}

impl Joins {
    // The line of the join that takes what the first thread of a task gives back, of those that are joined so.
    fn line_of(&self, tasks: &Tasks, task: u32) -> Option<u32> {
        let mut thread: u32 = 0;
        for line in self.taken.as_slice() {
            let is_one =
                matches!(tasks.number_of(ThreadNo(thread)), Some(number) if number == task);
            if *line != 0 && is_one {
                return Some(*line);
            }
            thread = thread.saturating_add(1);
        }
        None
    }
}

// A loss, and the join that takes what other threads of the task give back, if there is one in a loop.
#[derive(Drop)]
struct Told<'a> {
    lost: Lost,
    // None or one.
    taking: Vec<Taking<'a>>,
}

fn told_of<'a>(
    alloc: Global,
    program: &'a Program,
    order: &'a [Step],
    tasks: &Tasks,
    joins: &Joins,
    lost: Lost,
) -> Result<Told<'a>, AllocError> {
    let line = match lost.loss {
        Loss::Unjoined { .. } => joins.line_of(tasks, lost.task),
        Loss::Joined { .. } | Loss::Unset { .. } => None,
    };
    let found = match line {
        Some(line) => Taking::new(alloc, program, order, tasks, line, &joins.taken)?,
        None => None,
    };
    let mut taking = Vec::new(alloc);
    if let Some(found) = found {
        taking.push(found)?;
    }
    Ok(Told { lost, taking })
}

// These losses, each with the join that is told with it.
fn all_told<'a>(
    alloc: Global,
    program: &'a Program,
    order: &'a [Step],
    tasks: &Tasks,
    joins: &Joins,
    lost: &[Lost],
) -> Result<Vec<Told<'a>>, AllocError> {
    let mut told = Vec::new(alloc);
    for lost in lost {
        told.push(told_of(alloc, program, order, tasks, joins, *lost)?)?;
    }
    Ok(told)
}

/// How what threads give back is lost in a run that has ended, once for each task: a join takes it that it is not set for, or
/// it is set and no join takes it. Where joins in a loop take that of other threads, a run tells how that loop ended.
#[derive(Drop)]
pub struct Results<'a> {
    told: Vec<Told<'a>>,
    line: u32,
}

impl<'a> Results<'a> {
    /// What is lost in a run with these subthreads. The error is that memory is out.
    pub fn new(
        alloc: Global,
        program: &'a Program,
        order: &'a [Step],
        tasks: &Tasks,
    ) -> Result<Results<'a>, AllocError> {
        let texts = texts_of(alloc, program)?;
        let joins = joins_of(alloc, order, &texts)?;
        let lost = lost_of(alloc, tasks, &texts, &joins)?;
        let told = all_told(alloc, program, order, tasks, &joins, &lost)?;
        Ok(Results { told, line: 0 })
    }

    /// Whether a run has to tell how a loop ended.
    pub fn wants_run(&self) -> bool {
        for told in self.told.as_slice() {
            if !told.taking.is_empty() {
                return true;
            }
        }
        false
    }

    /// Appends what is lost, and of which threads it is taken. The error is that memory is out.
    pub fn push(&self, alloc: Global, text: &mut Vec<u8>) -> Result<(), AllocError> {
        for told in self.told.as_slice() {
            push_loss(text, told.lost.thread, told.lost.loss)?;
            if let Some(taking) = told.taking.first() {
                taking.push(alloc, text)?;
            }
        }
        Ok(())
    }
}

impl<'a> Reckon for Results<'a> {
    fn begin(&mut self) {
        for told in self.told.iter_mut() {
            if let Some(taking) = told.taking.get_mut(0) {
                taking.begin();
            }
        }
    }

    fn at(&mut self, line: u32) {
        self.line = line;
        for told in self.told.iter_mut() {
            if let Some(taking) = told.taking.get_mut(0) {
                taking.at(line);
            }
        }
    }

    fn of_control(&mut self, e: &Expr, env: &Env) -> Option<i64> {
        let line = self.line;
        for told in self.told.iter_mut() {
            if let Some(taking) = told.taking.get_mut(0) {
                taking.note(line, e, env);
            }
        }
        eval_d(e, env)
    }

    fn of_data(&mut self, e: &Expr, names: &[Name], env: &Env, registers: &[i64]) -> Option<i64> {
        Plainly.of_data(e, names, env, registers)
    }
}
