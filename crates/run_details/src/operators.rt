// The operators of arithmetic of a line, in text order, and which of them is not exact.

use exact_arithmetic::{negated, operated};
use run_hints::statements_of;
use std::alloc::{AllocError, Global};
use task_ast::{Env, Expr, Op, Program, What, eval_d};

/// How arithmetic is not exact.
#[derive(Clone, Copy, PartialEq, Eq)]
pub enum Inexact {
    Left,
    Divided,
}

// Whether an operator is not exact: it is, it is not, or that is not known, since data variables decide.
#[derive(Clone, Copy, PartialEq, Eq)]
enum Certainty {
    Never,
    Perhaps,
    Surely,
}

/// An operator with its right side, where it has two. It is counted from 1 from the beginning of its line on.
#[derive(Clone, Copy)]
pub struct Operator<'a> {
    pub number: usize,
    pub right: Option<&'a Expr>,
    /// Whether it is known not to be exact.
    pub is_sure: bool,
}

// The operators of one line so far: how many, and which of them are not exact in one way.
#[derive(Drop)]
struct Operators<'a, 'e> {
    way: Inexact,
    env: Option<&'e Env>,
    count: usize,
    sure: Option<Operator<'a>>,
    perhaps: Option<Operator<'a>>,
    // Whether more than one is not known.
    are_many: bool,
}

fn is_division(op: Op) -> bool {
    matches!(op, Op::Div | Op::Rem)
}

fn is_arithmetic(op: Op) -> bool {
    matches!(op, Op::Add | Op::Sub | Op::Mul | Op::Div | Op::Rem)
}

// Whether an expression names a data variable.
fn has_data(e: &Expr) -> bool {
    match e {
        Expr::Reg(_) => true,
        Expr::Neg(a) => has_data(a),
        Expr::Not(a) => has_data(a),
        Expr::Chain(first, links) => {
            if has_data(first) {
                return true;
            }
            for link in links.as_slice() {
                if has_data(&link.1) {
                    return true;
                }
            }
            false
        }
        // The place of a cell is read without data variables.
        Expr::Cell(_, _, _) | Expr::Num(_) | Expr::Ctl(_) | Expr::Me | Expr::Rows(_) => false,
    }
}

// Whether a flag has fallen.
fn by_flag(exact: bool) -> Certainty {
    if exact {
        Certainty::Never
    } else {
        Certainty::Surely
    }
}

// Whether an operator divides by 0.
fn division(op: Op, right: Option<i64>) -> Certainty {
    match right {
        Some(right) => by_flag(right != 0 || !is_division(op)),
        None if is_division(op) => Certainty::Perhaps,
        None => Certainty::Never,
    }
}

impl<'a, 'e> Operators<'a, 'e> {
    // The value of an expression, where control variables alone decide it.
    fn value_of(&self, e: &Expr) -> Option<i64> {
        let env = self.env?;
        if has_data(e) { None } else { eval_d(e, env) }
    }

    // Whether a minus before a value slips.
    fn negation(&self, value: Option<i64>) -> Certainty {
        match (self.way, value) {
            (Inexact::Divided, _) => Certainty::Never,
            (Inexact::Left, None) => Certainty::Perhaps,
            (Inexact::Left, Some(value)) => {
                let mut exact = true;
                negated(value, &mut exact);
                by_flag(exact)
            }
        }
    }

    // Whether an operator on two values slips.
    fn operation(&self, op: Op, left: Option<i64>, right: Option<i64>) -> Certainty {
        if self.way == Inexact::Divided {
            return division(op, right);
        }
        if op == Op::Rem || (op == Op::Div && right == Some(0)) {
            return Certainty::Never;
        }
        match (left, right) {
            (Some(left), Some(right)) => {
                let mut exact = true;
                operated(op, left, right, &mut exact);
                by_flag(exact)
            }
            _ => Certainty::Perhaps,
        }
    }

    // One operator more.
    fn note(&mut self, slips: Certainty, right: Option<&'a Expr>) {
        self.count = self.count.saturating_add(1);
        let operator = Operator {
            number: self.count,
            right,
            is_sure: slips == Certainty::Surely,
        };
        match slips {
            Certainty::Never => {}
            Certainty::Perhaps => {
                self.are_many = self.perhaps.is_some();
                self.perhaps = Some(operator);
            }
            Certainty::Surely => {
                if self.sure.is_none() {
                    self.sure = Some(operator);
                }
            }
        }
    }

    // The operators of an expression.
    fn note_in(&mut self, e: &'a Expr) {
        match e {
            Expr::Neg(a) => {
                let slips = self.negation(self.value_of(a));
                self.note(slips, None);
                self.note_in(a);
            }
            Expr::Not(a) => self.note_in(a),
            Expr::Cell(_, row, field) => {
                self.note_in(row);
                self.note_in(field);
            }
            Expr::Chain(first, links) => {
                self.note_in(first);
                let mut left = self.value_of(first);
                for link in links.as_slice() {
                    let right = self.value_of(&link.1);
                    if is_arithmetic(link.0) {
                        let slips = self.operation(link.0, left, right);
                        self.note(slips, Some(&link.1));
                    }
                    self.note_in(&link.1);
                    left = applied(link.0, left, right);
                }
            }
            _ => {}
        }
    }

    fn note_among(&mut self, es: &'a [Expr]) {
        for e in es {
            self.note_in(e);
        }
    }

    // Those of a statement outside of its blocks.
    fn note_at(&mut self, what: &'a What) {
        match what {
            What::SetCtl(_, e) => self.note_in(e),
            What::SetReg(_, e) => self.note_in(e),
            What::While(e, _) => self.note_in(e),
            What::If(e, _, _) => self.note_in(e),
            What::When(e, _, _) => self.note_in(e),
            What::Join(e, _) => self.note_in(e),
            What::Write(_, _, e) => self.note_in(e),
            What::Fork(_, es, _) => self.note_among(es.as_slice()),
            What::Print(es) => self.note_among(es.as_slice()),
            _ => {}
        }
    }
}

// The value of an operator on two values.
fn applied(op: Op, left: Option<i64>, right: Option<i64>) -> Option<i64> {
    let mut exact = true;
    Some(operated(op, left?, right?, &mut exact))
}

/// The first operator of a line that is not exact in a way under these control variables, or else the only one of which that
/// is not known. The error is that memory is out.
pub fn slipping_in<'a>(
    alloc: Global,
    program: &'a Program,
    line: u32,
    way: Inexact,
    env: Option<&Env>,
) -> Result<Option<Operator<'a>>, AllocError> {
    let mut operators = Operators {
        way,
        env,
        count: 0,
        sure: None,
        perhaps: None,
        are_many: false,
    };
    for task in program.tasks.as_slice() {
        for stmt in &statements_of(alloc, task)? {
            if stmt.line == line {
                operators.note_at(&stmt.what);
            }
        }
    }
    if operators.sure.is_some() {
        return Ok(operators.sure);
    }
    Ok(if operators.are_many {
        None
    } else {
        operators.perhaps
    })
}
