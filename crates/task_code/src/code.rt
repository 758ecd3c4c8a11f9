// The code of a program.

ghost use Rattle.std.specs.Prelude.{◌≡◌, ℕ, ◌≤◌, option_map, unwrap_or, slice_get, IfOk};
ghost use Rattle.task_ast.specs.meaning.Layout.{layout, lock_over};
ghost use Rattle.task_ast.specs.meaning.Names.{locks_of};
ghost use Rattle.task_ast.specs.meaning.Plain.{main_number};
ghost use Rattle.task_code.specs.Existing.{shape_of};
ghost use Rattle.task_code.specs.Flat.{code_of};
ghost use Rattle.task_code.specs.Jumps.{IsCode};
ghost use Rattle.task_code.specs.Parts.{first_place, stated_numbers};
ghost use Rattle.task_code.specs.Reading.{instrs_of, start_place};
ghost use Rattle.task_code.specs.View.{plain_instrs};
ghost use Rattle.task_code.specs.inner.Padded.{padded};

use crate::instrs::{Instr, Shape};
use crate::parts::Parts;
use gp_base::{At, LockNo, Nums, Seq};
use std::alloc::{AllocError, Global};
use std::marker::Model;
use task_ast::Layout;

/// The code of an accepted program, beside its layout. Contracts see the program and the instructions of each task;
/// each jump leads to an instruction or after the last one, each variable exists, and a number of 32 bits counts the
/// instructions of a task.
pub struct Code {
    parts: Parts,
}

impl Drop for Code {
    fn drop(self) {
        let Self { parts: _ } = self;
    }
}

impl Model for Code {
    ghost use Rattle.std.specs.Coded.{codes};
    ghost use Rattle.task_ast.specs.contracts.tree.Program as program;
    ghost use Rattle.task_code.specs.contracts.instrs.Instr as instr;
    ghost use Rattle.task_code.specs.Flat.{Flat};
    ghost use Rattle.task_code.specs.Parts.{flat_of, AreParts};

    ghost Value = { Flat };

    ghost coded = { Prim.hlevel (codes, program.the_row.coded, instr.the_row.coded) };

    ghost view = { λ c. flat_of c.parts };

    ghost invariant = { λ c. AreParts c.parts };
}

// How many control variables a task of this shape has; none where there is no such task.
fn controls_in(shape: Option<Shape>) -> usize
    ensures { result ≡ unwrap_or (option_map (λ s. s.ctl) shape) 0 }
{
    match shape {
        Some(shape) => shape.ctl as usize,
        None => 0,
    }
}

// The first so many of these values, and 0 up to the whole count.
fn padded(alloc: Global, values: &[i64], most: usize, count: usize) -> Result<Nums, AllocError>
    requires { most ≤ count }
    ensures { IfOk result (λ all. all ≡ padded most count values.now) }
{
    let mut all = match values.get(..most) {
        Some(first) => Vec::from_slice(alloc, first)?,
        None => Vec::from_slice(alloc, values)?,
    };
    all.resize(count, 0)?;
    Ok(Seq::from_vec(all))
}

impl Code {
    ghost use Rattle.task_code.specs.Parts.{flat_of, AreParts};

    pub(crate) fn of(parts: Parts) -> Code
        requires { AreParts parts }
        ensures { result ≡ flat_of parts }
    {
        Code { parts }
    }

    /// The instructions of a task, tasks being numbered from 0 in text order; none where there is no such task.
    pub fn instrs(&self, task: u32) -> &[Instr]
        ensures { plain_instrs result.now ≡ instrs_of (code_of self.now).tasks task }
    {
        match self.parts.tasks.get(task as usize) {
            Some(instrs) => instrs.as_slice(),
            None => &[],
        }
    }

    /// The place at which a task begins, or `None` where there is no such task.
    pub fn start(&self, task: u32) -> Option<At>
        ensures { result ≡ first_place (code_of self.now).program task }
    {
        if (task as usize) < self.parts.tasks.len() {
            Some(At { task, pc: 0 })
        } else {
            None
        }
    }

    /// How many control variables and registers a task has, or `None` where there is no such task.
    pub fn shape(&self, task: u32) -> Option<Shape>
        ensures { result ≡ option_map shape_of (slice_get (code_of self.now).program.tasks task) }
    {
        self.parts.shapes.get(task as usize).copied()
    }

    /// The control variables with which a thread of a task starts: the values of its control parameters, and 0 for all
    /// others; none where there is no such task. The error is that memory is out.
    pub fn start_values(
        &self,
        alloc: Global,
        task: u32,
        arguments: &Nums,
    ) -> Result<Nums, AllocError>
        ensures { IfOk result (λ values. values ≡ (start_place (code_of self.now).program task 0 arguments.now).ctl) }
    {
        let params = self.parts.params.get(task as usize).copied().unwrap_or(0);
        padded(
            alloc,
            arguments.as_slice(),
            params,
            controls_in(self.shape(task)),
        )
    }

    /// The number of the task `main`.
    pub fn main(&self) -> u32
        ensures { result ≡ main_number (code_of self.now).program }
    {
        self.parts.main
    }

    /// The stated numbers of the barriers, in declared order.
    pub fn barriers(&self) -> &Seq<u32>
        ensures { result.now ≡ stated_numbers (code_of self.now).program }
    {
        &self.parts.barriers
    }

    /// For each lock cell the record cells under it, in rising order.
    pub fn layout(&self) -> &Layout
        ensures { result.now ≡ layout (code_of self.now).program.heads }
    {
        &self.parts.layout
    }

    /// For each record cell the lock cell over it.
    pub fn over(&self) -> &Seq<LockNo>
        ensures { (cell : ℕ) → slice_get result.now cell ≡ lock_over (locks_of (code_of self.now).program.heads) (code_of self.now).program.heads cell }
    {
        &self.parts.over
    }

    /// The code is that of its program, which is accepted; its jumps stay inside it, it is short, and the variables
    /// that it names exist. Does nothing.
    pub fn facts(&self)
        ensures { IsCode (code_of self.now) }
    {
        let _ = &self.parts;
    }
}
