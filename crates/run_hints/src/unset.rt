// Variables that are read and that nothing sets.

use crate::statements::statements_of;
use crate::threads::Tasks;
use crate::words::push_counted;
use gp_base::Name;
use std::alloc::{AllocError, Global};
use task_ast::{Atom, Expr, Param, Program, Stmt, TaskText, What};
use text_pieces::Piece::{Number, Word};
use text_pieces::push_pieces;

// How many variables of a program are told at most.
const MOST_UNSET: u64 = 8;

/// A variable of a task by its name, a data variable without its `$`.
#[derive(Clone, Copy)]
pub struct Variable<'a> {
    pub name: &'a [u8],
    pub is_data: bool,
}

/// What a thread gives back.
pub const GIVEN_BACK: &[u8] = b"ret";

/// A control variable.
pub fn control(name: &Name) -> Variable<'_> {
    Variable {
        name: name.as_slice(),
        is_data: false,
    }
}

impl<'a> Variable<'a> {
    fn of(param: &'a Param) -> Variable<'a> {
        match param {
            Param::Ctl(name) => control(name),
            Param::Reg(name) => Variable {
                name: name.as_slice(),
                is_data: true,
            },
        }
    }

    fn is_control(self, name: &Name) -> bool {
        !self.is_data && name.as_slice() == self.name
    }

    fn is_register(self, name: &Name) -> bool {
        self.is_data && name.as_slice() == self.name
    }

    // Whether an expression names it.
    fn is_in(self, e: &Expr) -> bool {
        match e {
            Expr::Ctl(name) => self.is_control(name),
            Expr::Reg(name) => self.is_register(name),
            Expr::Cell(_, row, field) => self.is_in(row) || self.is_in(field),
            Expr::Neg(a) | Expr::Not(a) => self.is_in(a),
            Expr::Chain(first, links) => {
                if self.is_in(first) {
                    return true;
                }
                for link in links.as_slice() {
                    if self.is_in(&link.1) {
                        return true;
                    }
                }
                false
            }
            Expr::Num(_) | Expr::Me | Expr::Rows(_) => false,
        }
    }

    fn is_among(self, es: &[Expr]) -> bool {
        for e in es {
            if self.is_in(e) {
                return true;
            }
        }
        false
    }

    fn is_index(self, index: &Atom) -> bool {
        match index {
            Atom::Num(_) => false,
            Atom::Var(name) => self.is_control(name),
        }
    }

    // Whether a statement reads it, outside of its blocks.
    fn is_read_by(self, what: &What) -> bool {
        match what {
            What::SetCtl(_, e) | What::SetReg(_, e) => self.is_in(e),
            What::While(e, _) | What::Join(e, _) => self.is_in(e),
            What::If(e, _, _) | What::When(e, _, _) => self.is_in(e),
            What::Lock(_, index) | What::Unlock(_, index) => self.is_index(index),
            What::Read(_, index, _) => self.is_index(index),
            What::Write(_, index, e) => self.is_index(index) || self.is_in(e),
            What::Fork(_, es, _) => self.is_among(es.as_slice()),
            What::Print(es) => self.is_among(es.as_slice()),
            What::Settle(from, _) => self.is_register(from),
            What::Barrier(_) => false,
        }
    }

    /// Whether a statement sets it, outside of its blocks.
    pub fn is_set_by(self, what: &What) -> bool {
        match what {
            What::SetCtl(name, _) => self.is_control(name),
            What::Fork(_, _, Some(name)) => self.is_control(name),
            What::Settle(_, name) => self.is_control(name),
            What::SetReg(name, _) => self.is_register(name),
            What::Read(_, _, name) => self.is_register(name),
            What::Join(_, Some(name)) => self.is_register(name),
            _ => false,
        }
    }

    /// The line of the first of these statements that sets it.
    pub fn setting_line(self, statements: &[&Stmt]) -> Option<u32> {
        for stmt in statements {
            if self.is_set_by(&stmt.what) {
                return Some(stmt.line);
            }
        }
        None
    }

    // The line of the first of these statements that reads it, where none sets it.
    fn unset_line(self, statements: &[&Stmt]) -> Option<u32> {
        if self.setting_line(statements).is_some() {
            return None;
        }
        for stmt in statements {
            if self.is_read_by(&stmt.what) {
                return Some(stmt.line);
            }
        }
        None
    }
}

// The variables of a task that begin with 0.
fn variables_of<'a>(alloc: Global, task: &'a TaskText) -> Result<Vec<Variable<'a>>, AllocError> {
    let mut variables = Vec::new(alloc);
    for vars in task.vars.as_slice() {
        for param in vars.names.as_slice() {
            variables.push(Variable::of(param))?;
        }
    }
    variables.push(Variable {
        name: GIVEN_BACK,
        is_data: true,
    })?;
    Ok(variables)
}

// Appends that a line reads a variable that nothing sets.
fn push_one<'a>(text: &mut Vec<u8>, line: u32, variable: Variable<'a>) -> Result<(), AllocError> {
    push_pieces(
        text,
        &[
            Word(b"hint: line "),
            Number(u64::from(line)),
            Word(if variable.is_data {
                b" reads $"
            } else {
                b" reads "
            }),
            Word(variable.name),
            Word(b", which nothing sets: it is 0\n"),
        ],
    )
}

// Appends the variables of a task that are read and that nothing sets, and gives how many were told, with those before.
fn push_task(
    alloc: Global,
    text: &mut Vec<u8>,
    task: &TaskText,
    before: u64,
) -> Result<u64, AllocError> {
    let statements = statements_of(alloc, task)?;
    let mut told = before;
    for variable in &variables_of(alloc, task)? {
        if let Some(line) = variable.unset_line(&statements) {
            if told < MOST_UNSET {
                push_one(text, line, *variable)?;
            }
            told = told.saturating_add(1);
        }
    }
    Ok(told)
}

/// Appends each variable of a task of a run that is read in the task and that nothing there sets, with the first line that
/// reads it. The error is that memory is out.
pub fn push_unset(
    alloc: Global,
    text: &mut Vec<u8>,
    program: &Program,
    tasks: &Tasks,
) -> Result<(), AllocError> {
    let mut told: u64 = 0;
    let mut number: u32 = 0;
    for task in program.tasks.as_slice() {
        if tasks.are_run(number) {
            told = push_task(alloc, text, task, told)?;
        }
        number = number.saturating_add(1);
    }
    if told <= MOST_UNSET {
        return Ok(());
    }
    let more = told.saturating_sub(MOST_UNSET);
    push_counted(
        text,
        b"hint: nothing sets ",
        more,
        b" more variable",
        b" that are read\n",
    )
}
