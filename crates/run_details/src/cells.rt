// The cells that the statements of a line name, in text order, and which of them are not there.

use gp_base::Name;
use run_hints::value_of;
use std::alloc::{AllocError, Global};
use task_ast::{Atom, Env, Expr, Head, Program, Stmt, TaskText, What, eval_d};

/// A cell that is not there: one of a lock array or a record of this size, or one of a feed.
#[derive(Clone, Copy)]
pub enum Missing<'a> {
    Cell {
        array: &'a Name,
        index: &'a Atom,
        at: i64,
        size: i64,
    },
    Fed {
        feed: &'a Name,
        row: &'a Expr,
        field: &'a Expr,
    },
}

/// A cell that is not there, with the task that names it, and how many cells of its array stand from the beginning of its line
/// up to it.
#[derive(Clone, Copy)]
pub struct Absent<'a> {
    pub task: &'a TaskText,
    pub missing: Missing<'a>,
    pub place: usize,
}

// The arrays of the cells so far, the first cell that is not there with how many of its array stand up to it, and what
// they are read under.
#[derive(Drop)]
struct NamedCells<'a, 'e> {
    heads: &'a [Head],
    env: &'e Env,
    arrays: Vec<&'a Name>,
    first: Option<(Missing<'a>, usize)>,
}

// How many cells a lock array or a record of this name has.
fn size_of(heads: &[Head], array: &Name) -> Option<i64> {
    for head in heads {
        match head {
            Head::LockHead { name, size, .. } if name.as_slice() == array.as_slice() => {
                return Some(*size);
            }
            Head::RecHead { name, size, .. } if name.as_slice() == array.as_slice() => {
                return Some(*size);
            }
            _ => {}
        }
    }
    None
}

impl<'a, 'e> NamedCells<'a, 'e> {
    // A cell of an array, where it is not there.
    fn outside(&self, array: &'a Name, index: &'a Atom) -> Option<Missing<'a>> {
        let at = match index {
            Atom::Num(value) => *value,
            Atom::Var(name) => value_of(self.env.names.as_slice(), name),
        };
        let size = size_of(self.heads, array)?;
        if 0 <= at && at < size {
            return None;
        }
        Some(Missing::Cell {
            array,
            index,
            at,
            size,
        })
    }

    // A cell of a feed by its row and field, where these can be read and it is not there.
    fn unfed(
        &self,
        e: &'a Expr,
        feed: &'a Name,
        row: &'a Expr,
        field: &'a Expr,
    ) -> Option<Missing<'a>> {
        eval_d(row, self.env)?;
        eval_d(field, self.env)?;
        match eval_d(e, self.env) {
            Some(_) => None,
            None => Some(Missing::Fed { feed, row, field }),
        }
    }

    // How many cells of an array there are so far.
    fn count(&self, array: &Name) -> usize {
        let mut count: usize = 0;
        for other in &self.arrays {
            if other.as_slice() == array.as_slice() {
                count = count.saturating_add(1);
            }
        }
        count
    }

    // One cell more of an array, and whether it is not there.
    fn put(&mut self, array: &'a Name, missing: Option<Missing<'a>>) -> Result<(), AllocError> {
        self.arrays.push(array)?;
        if let Some(missing) = missing {
            if self.first.is_none() {
                self.first = Some((missing, self.count(array)));
            }
        }
        Ok(())
    }

    fn put_indexed(&mut self, array: &'a Name, index: &'a Atom) -> Result<(), AllocError> {
        let missing = self.outside(array, index);
        self.put(array, missing)
    }

    fn put_in(&mut self, e: &'a Expr) -> Result<(), AllocError> {
        match e {
            Expr::Cell(feed, row, field) => {
                let missing = self.unfed(e, feed, row, field);
                self.put(feed, missing)?;
                self.put_in(row)?;
                self.put_in(field)
            }
            Expr::Neg(a) => self.put_in(a),
            Expr::Not(a) => self.put_in(a),
            Expr::Chain(first, links) => {
                self.put_in(first)?;
                for link in links.as_slice() {
                    self.put_in(&link.1)?;
                }
                Ok(())
            }
            _ => Ok(()),
        }
    }

    fn put_among(&mut self, es: &'a [Expr]) -> Result<(), AllocError> {
        for e in es {
            self.put_in(e)?;
        }
        Ok(())
    }

    // The cells that a statement names before it does anything else.
    #[cycle(putting)]
    fn put_at(&mut self, what: &'a What) -> Result<(), AllocError> {
        match what {
            What::SetCtl(_, e) => self.put_in(e),
            What::SetReg(_, e) => self.put_in(e),
            What::While(e, _) => self.put_in(e),
            What::If(e, _, _) => self.put_in(e),
            What::Join(e, _) => self.put_in(e),
            What::Lock(array, index) => self.put_indexed(array, index),
            What::Unlock(array, index) => self.put_indexed(array, index),
            What::Read(record, index, _) => self.put_indexed(record, index),
            What::Write(record, index, e) => {
                self.put_indexed(record, index)?;
                self.put_in(e)
            }
            What::Fork(_, es, _) => self.put_among(es.as_slice()),
            What::Print(es) => self.put_among(es.as_slice()),
            What::When(e, first, second) => {
                self.put_in(e)?;
                self.put_all(first.as_slice())?;
                self.put_all(second.as_slice())
            }
            What::Barrier(_) | What::Settle(_, _) => Ok(()),
        }
    }

    #[cycle(putting)]
    fn put_all(&mut self, block: &'a [Stmt]) -> Result<(), AllocError> {
        for stmt in block {
            self.put_at(&stmt.what)?;
        }
        Ok(())
    }

    // Those of the statements in a line.
    fn put_line(&mut self, block: &'a [Stmt], line: u32) -> Result<(), AllocError> {
        for stmt in block {
            if stmt.line == line {
                self.put_at(&stmt.what)?;
            }
            match &stmt.what {
                What::While(_, body) => self.put_line(body.as_slice(), line)?,
                What::If(_, first, second) => {
                    self.put_line(first.as_slice(), line)?;
                    self.put_line(second.as_slice(), line)?;
                }
                _ => {}
            }
        }
        Ok(())
    }
}

/// The first cell that is not there among those that the statements in a line of a program name before they do anything else.
/// The error is that memory is out.
pub fn missing_in<'a>(
    alloc: Global,
    program: &'a Program,
    env: &Env,
    line: u32,
) -> Result<Option<Absent<'a>>, AllocError> {
    let mut cells = NamedCells {
        heads: program.heads.as_slice(),
        env,
        arrays: Vec::new(alloc),
        first: None,
    };
    for task in program.tasks.as_slice() {
        cells.put_line(task.body.as_slice(), line)?;
        if let Some((missing, place)) = cells.first {
            return Ok(Some(Absent {
                task,
                missing,
                place,
            }));
        }
    }
    Ok(None)
}
