// How many turns loops have taken since they were entered.

use gp_base::{Name, ThreadNo};
use one_thread::{Plainly, Reckon, Step};
use std::alloc::{AllocError, Global};
use task_ast::{Env, Expr, Op, Stmt, eval_d};

/// A loop.
#[derive(Clone, Copy)]
pub struct Loop<'a> {
    pub line: u32,
    pub condition: &'a Expr,
    pub body: &'a [Stmt],
}

/// A loop, and how many turns it has begun since it was entered.
#[derive(Clone, Copy)]
pub struct Turned<'a> {
    pub around: Loop<'a>,
    pub turns: u64,
}

/// The turns of loops of one thread, in a run of which this is the order of the subthreads. A loop is entered anew after its
/// condition was 0. Loops of one line whose conditions are written alike are not told apart.
#[derive(Drop)]
pub struct Turns<'a> {
    pub loops: Vec<Turned<'a>>,
    thread: ThreadNo,
    order: &'a [Step],
    begun: usize,
    line: u32,
    // Whether the subthread is one of the thread.
    own: bool,
}

impl<'a> Turns<'a> {
    /// No subthread has begun yet. The error is that memory is out.
    pub fn new(
        alloc: Global,
        order: &'a [Step],
        thread: ThreadNo,
        loops: &[Loop<'a>],
    ) -> Result<Turns<'a>, AllocError> {
        let mut turned = Vec::new(alloc);
        for around in loops {
            turned.push(Turned {
                around: *around,
                turns: 0,
            })?;
        }
        Ok(Turns {
            loops: turned,
            thread,
            order,
            begun: 0,
            line: 0,
            own: false,
        })
    }

    // The condition of a loop may have this value.
    fn note(&mut self, e: &Expr, value: Option<i64>) {
        let line = self.line;
        for turned in self.loops.iter_mut() {
            if turned.around.line == line && is_alike(turned.around.condition, e) {
                turned.turns = match value {
                    Some(0) | None => 0,
                    Some(_) => turned.turns.saturating_add(1),
                };
            }
        }
    }
}

impl<'a> Reckon for Turns<'a> {
    fn begin(&mut self) {
        self.own = match self.order.get(self.begun) {
            Some(step) => step.thread.0 == self.thread.0,
            None => false,
        };
        self.begun = self.begun.saturating_add(1);
    }

    fn at(&mut self, line: u32) {
        self.line = line;
    }

    fn of_control(&mut self, e: &Expr, env: &Env) -> Option<i64> {
        let value = eval_d(e, env);
        if self.own {
            self.note(e, value);
        }
        value
    }

    fn of_data(&mut self, e: &Expr, names: &[Name], env: &Env, registers: &[i64]) -> Option<i64> {
        Plainly.of_data(e, names, env, registers)
    }
}

fn is_same(one: &Name, other: &Name) -> bool {
    one.as_slice() == other.as_slice()
}

// Whether two expressions are written alike.
#[cycle(alike)]
fn is_alike(one: &Expr, other: &Expr) -> bool {
    match one {
        Expr::Num(a) => matches!(other, Expr::Num(b) if a == b),
        Expr::Ctl(a) => matches!(other, Expr::Ctl(b) if is_same(a, b)),
        Expr::Reg(a) => matches!(other, Expr::Reg(b) if is_same(a, b)),
        Expr::Rows(a) => matches!(other, Expr::Rows(b) if is_same(a, b)),
        Expr::Me => matches!(other, Expr::Me),
        Expr::Neg(a) => match other {
            Expr::Neg(b) => is_alike(a, b),
            _ => false,
        },
        Expr::Not(a) => match other {
            Expr::Not(b) => is_alike(a, b),
            _ => false,
        },
        Expr::Cell(feed, row, field) => match other {
            Expr::Cell(feed_of, row_of, field_of) => {
                is_same(feed, feed_of) && is_alike(row, row_of) && is_alike(field, field_of)
            }
            _ => false,
        },
        Expr::Chain(first, links) => match other {
            Expr::Chain(first_of, links_of) => {
                is_alike(first, first_of) && are_alike(links.as_slice(), links_of.as_slice())
            }
            _ => false,
        },
    }
}

// The same of what follows the first member of a chain.
#[cycle(alike)]
fn are_alike(links: &[(Op, Expr)], others: &[(Op, Expr)]) -> bool {
    if links.len() != others.len() {
        return false;
    }
    for (link, other) in links.iter().zip(others) {
        if link.0 != other.0 || !is_alike(&link.1, &other.1) {
            return false;
        }
    }
    true
}
