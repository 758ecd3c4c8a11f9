// How often the conditions of a program let forks out.

use crate::threads::Tasks;
use crate::words::push_times;
use gp_base::{Name, ThreadNo};
use one_thread::{Reckon, Step};
use run_counts::{Loop, Turns};
use std::alloc::{AllocError, Global};
use task_ast::{Env, Expr, Program, Stmt, What};
use text_pieces::Piece::{Number, Word};
use text_pieces::push_pieces;

// How many conditions are told at most.
const MOST_BRANCHES: usize = 4;

// A block of an `if` with a fork: the lines of both, and how often the other block was taken.
#[derive(Clone, Copy)]
struct ForkBlock {
    line: u32,
    fork: u32,
    // Whether it is the block after `else`.
    is_else: bool,
    left_out: u64,
}

impl ForkBlock {
    // Whether it was left out, where its condition has so many turns.
    fn is_left_out(&self, turns: u64) -> bool {
        match turns {
            0 => !self.is_else,
            1 => false,
            _ => self.is_else,
        }
    }
}

// The line of the first fork in a block.
fn fork_in(block: &[Stmt]) -> Option<u32> {
    for stmt in block {
        let found = match &stmt.what {
            What::Fork(_, _, _) => Some(stmt.line),
            What::While(_, body) => fork_in(body.as_slice()),
            What::If(_, first, second) => match fork_in(first.as_slice()) {
                Some(line) => Some(line),
                None => fork_in(second.as_slice()),
            },
            _ => None,
        };
        if found.is_some() {
            return found;
        }
    }
    None
}

// The blocks with forks, and beside each the condition, in the form of a loop.
#[derive(Drop)]
struct ForkBlocks<'a> {
    branches: Vec<ForkBlock>,
    conditions: Vec<Loop<'a>>,
}

impl<'a> ForkBlocks<'a> {
    // A block of an `if` in a line.
    fn add(
        &mut self,
        line: u32,
        condition: &'a Expr,
        block: &'a [Stmt],
        is_else: bool,
    ) -> Result<(), AllocError> {
        let Some(fork) = fork_in(block) else {
            return Ok(());
        };
        self.branches.push(ForkBlock {
            line,
            fork,
            is_else,
            left_out: 0,
        })?;
        self.conditions.push(Loop {
            line,
            condition,
            body: block,
        })?;
        Ok(())
    }

    // Those among these statements, the outer ones first.
    fn search(&mut self, block: &'a [Stmt]) -> Result<(), AllocError> {
        for stmt in block {
            match &stmt.what {
                What::While(_, body) => self.search(body.as_slice())?,
                What::If(condition, first, second) => {
                    self.add(stmt.line, condition, first.as_slice(), false)?;
                    self.search(first.as_slice())?;
                    self.add(stmt.line, condition, second.as_slice(), true)?;
                    self.search(second.as_slice())?;
                }
                _ => {}
            }
        }
        Ok(())
    }
}

// The blocks with forks of the tasks that a run has.
fn fork_blocks<'a>(
    alloc: Global,
    program: &'a Program,
    tasks: &Tasks,
) -> Result<ForkBlocks<'a>, AllocError> {
    let mut found = ForkBlocks {
        branches: Vec::new(alloc),
        conditions: Vec::new(alloc),
    };
    let mut number: u32 = 0;
    for task in program.tasks.as_slice() {
        if tasks.are_run(number) {
            found.search(task.body.as_slice())?;
        }
        number = number.saturating_add(1);
    }
    Ok(found)
}

/// The blocks with forks of the conditions of a program, and how often each was left out in a run. Conditions of one line that
/// are written alike are not told apart.
#[derive(Drop)]
pub struct Branches<'a> {
    branches: Vec<ForkBlock>,
    // Each condition has one turn before it is asked for, and then none or two.
    turns: Turns<'a>,
    has_begun: bool,
}

impl<'a> Branches<'a> {
    /// The blocks with forks of the tasks that this run has. None was left out yet. The error is that memory is out.
    pub fn new(
        alloc: Global,
        program: &'a Program,
        order: &'a [Step],
        tasks: &Tasks,
    ) -> Result<Branches<'a>, AllocError> {
        let ForkBlocks {
            branches,
            conditions,
        } = fork_blocks(alloc, program, tasks)?;
        Ok(Branches {
            branches,
            turns: Turns::new(alloc, order, ThreadNo(0), &conditions)?,
            has_begun: false,
        })
    }

    /// Whether there is no such block.
    pub fn is_empty(&self) -> bool {
        self.branches.is_empty()
    }

    // The turns tell which condition was asked for, and its value.
    fn note(&mut self) {
        let mut place: usize = 0;
        for branch in self.branches.iter_mut() {
            if let Some(turned) = self.turns.loops.get(place) {
                if branch.is_left_out(turned.turns) {
                    branch.left_out = branch.left_out.saturating_add(1);
                }
            }
            place = place.saturating_add(1);
        }
    }

    /// Appends the first blocks that were left out, and how often. The error is that memory is out.
    pub fn push(&self, text: &mut Vec<u8>) -> Result<(), AllocError> {
        let mut told: usize = 0;
        for branch in self.branches.as_slice() {
            if branch.left_out > 0 && told < MOST_BRANCHES {
                push_branch(text, *branch)?;
                told = told.saturating_add(1);
            }
        }
        Ok(())
    }
}

impl<'a> Reckon for Branches<'a> {
    // The turns are those of all threads, as if all were thread 0, with which a run begins.
    fn begin(&mut self) {
        if !self.has_begun {
            self.turns.begin();
        }
        self.has_begun = true;
    }

    fn at(&mut self, line: u32) {
        self.turns.at(line);
    }

    fn of_control(&mut self, e: &Expr, env: &Env) -> Option<i64> {
        for turned in self.turns.loops.iter_mut() {
            turned.turns = 1;
        }
        let value = self.turns.of_control(e, env);
        self.note();
        value
    }

    fn of_data(&mut self, e: &Expr, names: &[Name], env: &Env, registers: &[i64]) -> Option<i64> {
        self.turns.of_data(e, names, env, registers)
    }
}

// Appends how often a block was left out.
fn push_branch(text: &mut Vec<u8>, branch: ForkBlock) -> Result<(), AllocError> {
    push_pieces(
        text,
        &[
            Word(b"hint: the `if` in line "),
            Number(u64::from(branch.line)),
            Word(b", with the fork in line "),
            Number(u64::from(branch.fork)),
            Word(if branch.is_else {
                b" in its `else`, was true "
            } else {
                b", was false "
            }),
        ],
    )?;
    push_times(text, branch.left_out)?;
    text.extend_from_slice(b"\n")
}
