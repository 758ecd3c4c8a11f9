// What is noted of a run.

use crate::data::reckon_data;
use crate::operators::{Sought, divides_by_zero, lines_with};
use crate::values::{Kept, Values};
use exact_arithmetic::reckon;
use gp_base::{Limits, Name};
use one_thread::{Plainly, Reckon};
use std::alloc::{AllocError, Global};
use task_ast::{Env, Expr, Program, Stmt, What, eval_d};

/// How often the arithmetic of a line went wrong in one way, at which position first, and the control variables there.
#[derive(Clone, Copy)]
pub struct Slip {
    pub times: u64,
    pub first: u32,
    pub kept: Option<Kept>,
}

/// The slips of each line, by its number: those that left 64 bits and divided by no 0, and those that divided by 0. And by
/// position the line in which a control value was last asked for, which is that of its loop where a subthread has spent
/// its turns.
#[derive(Drop)]
pub struct Counting {
    pub left: Vec<Slip>,
    pub divided: Vec<Slip>,
    pub values: Values,
    calculating: Vec<bool>,
    dividing: Vec<bool>,
    lines: Vec<u32>,
    begun: u32,
    line: u32,
    control: u32,
    // Whether an expression in the line may slip.
    calculates: bool,
}

const NO_SLIP: Slip = Slip {
    times: 0,
    first: 0,
    kept: None,
};

// Where an expression slipped: its line, the position of its subthread, and the control variables there.
#[derive(Clone, Copy)]
struct Place<'a> {
    line: u32,
    position: u32,
    names: &'a [(Name, i64)],
}

// Notes a slip in its line, and where it was if it is the first.
fn note(slips: &mut Vec<Slip>, values: &mut Values, place: Place<'_>) {
    if let Some(slip) = slips.get_mut(place.line as usize) {
        if slip.times == 0 {
            slip.first = place.position;
            slip.kept = values.keep(place.names);
        }
        slip.times = slip.times.saturating_add(1);
    }
}

// The last line of a block in which a statement begins.
fn last_line(block: &[Stmt]) -> u32 {
    let mut last = 0;
    for stmt in block {
        let inner = match &stmt.what {
            What::While(_, body) => last_line(body.as_slice()),
            What::If(_, first, second) => {
                last_line(first.as_slice()).max(last_line(second.as_slice()))
            }
            What::When(_, first, second) => {
                last_line(first.as_slice()).max(last_line(second.as_slice()))
            }
            _ => 0,
        };
        last = inner.max(stmt.line).max(last);
    }
    last
}

fn is_marked(lines: &[bool], line: u32) -> bool {
    match lines.get(line as usize) {
        Some(marked) => *marked,
        None => false,
    }
}

impl Counting {
    /// Nothing is noted yet of a run of a program under these limits. The error is that memory is out.
    pub fn new(alloc: Global, program: &Program, limits: Limits) -> Result<Counting, AllocError> {
        let mut last = 0;
        for task in program.tasks.as_slice() {
            last = last_line(task.body.as_slice()).max(last);
        }
        let lines = (last as usize).saturating_add(1);
        Ok(Counting {
            left: Vec::from_elem(alloc, NO_SLIP, lines)?,
            divided: Vec::from_elem(alloc, NO_SLIP, lines)?,
            values: Values::new(alloc)?,
            calculating: lines_with(alloc, program, Sought::Arithmetic, lines)?,
            dividing: lines_with(alloc, program, Sought::Divisions, lines)?,
            lines: Vec::from_elem(alloc, 0, limits.subthreads as usize)?,
            begun: 0,
            line: 0,
            control: 0,
            calculates: false,
        })
    }

    /// The line in which the subthread at a position last asked for a control value, or 0 where it is not known.
    pub fn control_line(&self, position: usize) -> u32 {
        if position.saturating_add(1) == self.begun as usize {
            return self.control;
        }
        match self.lines.get(position) {
            Some(line) => *line,
            None => 0,
        }
    }

    // Whether a slip in this line may be a division by 0.
    fn may_divide(&self) -> bool {
        is_marked(&self.dividing, self.line)
    }

    // A slip of an expression in this line.
    fn slipped(&mut self, e: &Expr, names: &[Name], env: &Env, registers: &[i64]) {
        let place = Place {
            line: self.line,
            position: self.begun.saturating_sub(1),
            names: env.names.as_slice(),
        };
        if self.may_divide() && divides_by_zero(e, names, env, registers) {
            note(&mut self.divided, &mut self.values, place);
        } else {
            note(&mut self.left, &mut self.values, place);
        }
    }
}

impl Reckon for Counting {
    fn begin(&mut self) {
        let position = self.begun.saturating_sub(1) as usize;
        if let Some(line) = self.lines.get_mut(position) {
            *line = self.control;
        }
        self.begun = self.begun.saturating_add(1);
        self.control = 0;
    }

    fn at(&mut self, line: u32) {
        self.line = line;
        self.calculates = is_marked(&self.calculating, line);
    }

    fn of_control(&mut self, e: &Expr, env: &Env) -> Option<i64> {
        self.control = self.line;
        if !self.calculates {
            return eval_d(e, env);
        }
        let mut exact = true;
        let value = reckon(e, env, &mut exact);
        if !exact {
            self.slipped(e, &[], env, &[]);
        }
        value
    }

    fn of_data(&mut self, e: &Expr, names: &[Name], env: &Env, registers: &[i64]) -> Option<i64> {
        if !self.calculates {
            return Plainly.of_data(e, names, env, registers);
        }
        let mut exact = true;
        let value = reckon_data(e, names, env, registers, &mut exact);
        if !exact {
            self.slipped(e, names, env, registers);
        }
        value
    }
}
