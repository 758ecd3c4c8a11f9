// The threads of a run.
ghost use Rattle.std.specs.Prelude.{◌≡◌, ◌<◌, ◌≤◌, map, length, IfOk, OnOk};
ghost use Rattle.task_ast.specs.declared.sync.Next.{Next as NextThere};
ghost use Rattle.task_ast.specs.meaning.State;
ghost use Rattle.one_thread.specs.inner.Subthreads.{settled};
ghost use Rattle.one_thread.specs.View.{WalksStand};
ghost use Rattle.one_thread.specs.Runs.{slots_of, registers_at, joined_of, AreSound, IsNew, Forks, Performed, IsSmall};
ghost use Rattle.lock_checker.specs.Accepted.{program_of};

use crate::data::Data;
use crate::left::Left;
use crate::names::Names;
use crate::reckoning::Reckon;
use crate::seats::Table;
use crate::turns::thread_number;
use crate::variables::{control_variables, number_at, with_number};
use crate::walk::Walk;
use crate::work::{Done, Shared, Told, work};
use gp_base::{Name, Nums, Seq};
use lock_checker::Checked;
use std::alloc::{AllocError, Global};
use std::mem;
use task_ast::{Env, Next, SyncOp};

/// A run: its program with the names of each task's registers, the thread table, the threads, and what they share.
#[derive(Drop)]
pub struct Run<'a> {
    pub program: &'a Checked,
    pub slots: &'a [Seq<Name>],
    pub turns: u64,
    pub table: Table,
    pub threads: Vec<Walk<'a>>,
    pub shared: Shared,
}

/// A thread at the start of a task. The error is that memory is out; a task that isn't there is none of a program.
pub fn new_thread<'a>(
    alloc: Global,
    program: &'a Checked,
    slots: &'a [Seq<Name>],
    task: usize,
    me: usize,
    arguments: &[i64],
    registers: Nums,
) -> Result<Walk<'a>, AllocError>
    requires { slots.now ≡ map slots_of (program_of program.now).tasks }
    ensures { IfOk result (λ w. IsNew (program_of program.now) task me arguments.now registers w) }
{
    let Some(text) = program.program().tasks.as_slice().get(task) else {
        return Err(AllocError);
    };
    let Some(names) = slots.get(task) else {
        return Err(AllocError);
    };
    let me = thread_number(me)?;
    let variables = control_variables(alloc, text, arguments)?;
    Ok(Walk {
        program,
        task: text,
        registers: names.as_slice(),
        left: Left::new(alloc, text.body.as_slice()),
        env: Env {
            names: variables,
            regs: Seq::new(alloc),
            me,
            feeds: Seq::new(alloc),
        },
        data: Data {
            registers,
            child: Seq::new(alloc),
            cells: Seq::new(alloc),
            lines: Seq::new(alloc),
            named: Names::new(alloc),
        },
    })
}

// `$ret` of a thread, or 0 where it isn't there.
fn first_register(threads: &[Walk], h: usize) -> i64
    ensures { result ≡ State.number_at (registers_at threads.now h) 0 }
{
    match threads.get(h) {
        Some(walk) => number_at(walk.data.registers.as_slice(), 0),
        None => 0,
    }
}

// What a join brings: `$ret` of the thread that it names.
fn joined_value(begins: &SyncOp, threads: &[Walk]) -> i64
    ensures { result ≡ joined_of begins.now threads.now }
{
    if let SyncOp::Join(h) = begins {
        if *h >= 0 {
            return first_register(threads, *h as usize);
        }
    }
    0
}

// The thread, before anything else, where a settle sets a variable to the value of a register.
fn settle(alloc: Global, walk: &mut Walk, begins: &SyncOp)
    ensures { walk.new ≡ settled begins.now walk.old }
{
    if let SyncOp::Settle { reg, ctl } = begins {
        let value = number_at(walk.data.registers.as_slice(), *reg as usize);
        let names = mem::replace(&mut walk.env.names, Seq::new(alloc));
        walk.env.names = with_number(names, *ctl as usize, value);
    }
}

impl Run<'_> {
    // A forked thread stands last, with these registers.
    fn add(&mut self, alloc: Global, begins: &SyncOp, registers: Nums) -> Result<(), AllocError>
        requires { self.old.slots.now ≡ map slots_of (program_of self.old.program.now).tasks }
        ensures threads { OnOk result (Forks (program_of self.old.program.now) begins.now registers self.old.threads.items self.new.threads.items) }
        ensures table { self.new.table ≡ self.old.table }
        ensures shared { self.new.shared ≡ self.old.shared }
        ensures program { self.new.program ≡ self.old.program }
        ensures slots { self.new.slots ≡ self.old.slots }
        ensures turns { self.new.turns ≡ self.old.turns }
    {
        if let SyncOp::Fork { task, args } = begins {
            let me = self.threads.len();
            let thread = new_thread(
                alloc,
                self.program,
                self.slots,
                *task as usize,
                me,
                args.as_slice(),
                registers,
            )?;
            self.threads.push(thread)?;
            return Ok(());
        }
        Ok(())
    }

    /// Performs one subthread, and gives what is told of it.
    pub fn perform<R: Reckon>(
        &mut self,
        alloc: Global,
        reckon: &mut R,
        t: usize,
        begins: &Next,
        child: Option<usize>,
    ) -> Result<Told, AllocError>
        requires exists { t < length self.old.threads.items }
        requires seated { t < length self.old.table.seats.items }
        requires walks { WalksStand self.old.table }
        requires small { IsSmall (program_of self.old.program.now) }
        requires slots { self.old.slots.now ≡ map slots_of (program_of self.old.program.now).tasks }
        requires sound { AreSound (program_of self.old.program.now) self.old.threads.items }
        ensures { IfOk result (λ told. Performed self.old t begins.now child told self.new) }
    {
        let joined = joined_value(&begins.sync, &self.threads);
        let walk = &mut self.threads[t];
        settle(alloc, walk, &begins.sync);
        let done = work(
            alloc,
            reckon,
            walk,
            &mut self.shared,
            &begins.sync,
            child,
            joined,
            self.turns,
        )?;
        let Done {
            next,
            child: registers,
            told,
        } = done;
        self.table.learn(t, next);
        self.add(alloc, &begins.sync, registers)?;
        Ok(told)
    }
}
