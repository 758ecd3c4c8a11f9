// The walk of one thread over its task's statements.
ghost use Rattle.std.specs.Prelude.{◌≡◌, ◌≤◌, ◌^◌, ℕ, ℤ, IsTrue, List, Option, Some, None, is_some, option_map, option_and_then, [], ◌∷◌, ◌++◌, position, IfOk, IfNone, IfSome, OnOk};
ghost use Rattle.task_ast.specs.meaning.Names.{is_task, is_name, locks_of, records_of, barriers_of, cells_in, registers_of, task_named, task_number};
ghost use Rattle.task_ast.specs.meaning.Tree as plain;
ghost use Rattle.task_ast.specs.meaning.Tree.{Name as PlainName};
ghost use Rattle.task_ast.specs.declared.sync.SyncOp.TheVariants as sync;
ghost use Rattle.task_ast.specs.meaning.Control.{step, step_at, tree_body, control_arguments, data_arguments, fork_named, begin_actions, behind, Setting, lock_number as lock_number_at};
ghost use Rattle.task_ast.specs.View.{plain_expr, plain_exprs, plain_stmts, plain_block, plain_what, plain_task, plain_program};
ghost use Rattle.task_ast.specs.Shaped.{is_data};
ghost use Rattle.task_ast.specs.meaning.Action.{Action};
ghost use Rattle.one_thread.specs.inner.Working.{all_worked};
ghost use Rattle.one_thread.specs.inner.Remaining.{left_of, rest_of};
ghost use Rattle.one_thread.specs.Walking.{setting_of, point_of, LeadsTo, Stepped, Came, Halted, Ran, Begun, Gives};
ghost use Rattle.lock_checker.specs.Accepted.{program_of};

use crate::cells::{barrier_number, lock_number, same_name};
use crate::data::{
    Data, fits, has_value, index_of, is_zero, note, perform, register_number, taken,
};
use crate::left::Left;
use crate::reckoning::{Plainly, Reckon};
use crate::variables::{register_names, set_number, variable_number, with_value, zeros};
use gp_base::{LockNo, Name, Nums, Seq};
use lock_checker::Checked;
use std::alloc::{AllocError, Global};
use std::mem;
use task_ast::{Atom, Env, Expr, Next, Param, Stmt, SyncOp, TaskText, What};

/// A thread at work: its task, the statements left, its control variables under which expressions are read, and its
/// data.
#[derive(Drop)]
pub struct Walk<'a> {
    pub program: &'a Checked,
    pub task: &'a TaskText,
    pub registers: &'a [Name],
    pub left: Left<'a>,
    pub env: Env,
    pub data: Data,
}

/// What one control step did: it led on, or it found a loop turn with the body of its loop, or a stop.
#[derive(Drop)]
pub enum Went<'a> {
    On,
    Turned(&'a [Stmt]),
    Stopped(Next),
}

fn stop<'a>(sync: SyncOp, line: u32) -> Went<'a>
    ensures { result ≡ Went.Stopped (record { sync = sync; line = line }) }
{
    Went::Stopped(Next { sync, line })
}

fn fault<'a>(line: u32) -> Went<'a>
    ensures { result ≡ Went.Stopped (record { sync = SyncOp.BadIndex; line = line }) }
{
    stop(SyncOp::BadIndex, line)
}

// The number of the first task of this name.
fn task_place(tasks: &[TaskText], name: &Name) -> Option<usize>
    ensures { result ≡ position (λ task. is_name name.now task.name) tasks.now }
{
    tasks.iter().position(|task| same_name(name, &task.name))
}

fn number(k: usize) -> Result<u32, AllocError>
    ensures { IfOk result (λ number. number ≡ k) }
{
    match u32::try_from(k) {
        Ok(number) => Ok(number),
        Err(_) => Err(AllocError),
    }
}

// The values of a fork's control arguments, or `None` where one has none.
fn control_values<R: Reckon>(
    alloc: Global,
    reckon: &mut R,
    params: &[Param],
    es: &[Expr],
    env: &Env,
) -> Result<Option<Nums>, AllocError>
    ensures { IfOk result (λ values. values ≡ control_arguments params.now (plain_exprs es.now) env.now) }
{
    let mut values = Seq::new(alloc);
    for (k, param) in params.iter().enumerate() {
        let Some(e) = es.get(k) else {
            return Ok(Some(values));
        };
        if let Param::Ctl(_) = param {
            match reckon.of_control(e, env) {
                Some(v) => values.push(v)?,
                None => return Ok(None),
            }
        }
    }
    Ok(Some(values))
}

// Whether each data argument of a fork has a value.
fn data_fits(params: &[Param], es: &[Expr], env: &Env) -> bool
    ensures { (s : Setting) (given registers : List PlainName) → result ≡ is_some (data_arguments s given registers params.now (plain_exprs es.now) env.now) }
{
    for (k, param) in params.iter().enumerate() {
        let Some(e) = es.get(k) else {
            return true;
        };
        match param {
            Param::Reg(_) => {
                if !has_value(e, env) {
                    return false;
                }
            }
            Param::Ctl(_) => {}
        }
    }
    true
}

// The data arguments of a fork go into the registers of the child.
fn give<R: Reckon>(
    reckon: &mut R,
    params: &[Param],
    es: &[Expr],
    given: &[Name],
    names: &[Name],
    env: &Env,
    data: &mut Data,
)
    ensures { (joined : ℤ) (s : Setting) (actions : List Action) → data_arguments s given.now names.now params.now (plain_exprs es.now) env.now ≡ Some actions → data.new ≡ all_worked joined actions data.old }
{
    for (k, param) in params.iter().enumerate() {
        let Some(e) = es.get(k) else {
            return;
        };
        match param {
            Param::Reg(x) => {
                if let Some(v) = reckon.of_data(e, names, env, data.registers.as_slice()) {
                    set_number(&mut data.child, register_number(given, x), v);
                }
            }
            Param::Ctl(_) => {}
        }
    }
}

// The task of this name, with its number.
fn named_task<'a>(program: &'a Checked, name: &Name) -> Option<(usize, &'a TaskText)>
    ensures none { IfNone result (task_named (plain_program (program_of program.now)) name.now ≡ None) }
    ensures number { IfSome result (λ found. task_number (plain_program (program_of program.now)) name.now ≡ Some found.0) }
    ensures task { IfSome result (λ found. task_named (plain_program (program_of program.now)) name.now ≡ Some (plain_task found.1.now)) }
{
    let tasks = program.program().tasks.as_slice();
    match task_place(tasks, name) {
        Some(k) => Some((k, &tasks[k])),
        None => None,
    }
}

// The values of a fork's control arguments, or `None` where an argument has none.
fn fork_values<R: Reckon>(
    alloc: Global,
    reckon: &mut R,
    params: &[Param],
    es: &[Expr],
    env: &Env,
) -> Result<Option<Nums>, AllocError>
    ensures { IfOk result (λ values. (s : Setting) (given registers : List PlainName) → values
        ≡ option_and_then (λ controls. option_map (λ actions. controls) (data_arguments s given registers params.now (plain_exprs es.now) env.now)) (control_arguments params.now (plain_exprs es.now) env.now)) }
{
    if !data_fits(params, es, env) {
        return Ok(None);
    }
    control_values(alloc, reckon, params, es, env)
}

impl<'a> Walk<'a> {
    // A statement that sets a control variable.
    fn set_control<R: Reckon>(
        &mut self,
        alloc: Global,
        reckon: &mut R,
        x: &Name,
        e: &Expr,
        line: u32,
    ) -> Went<'a>
        requires clean { self.old.env.regs ≡ [] }
        ensures { Stepped (step_at (setting_of self.old) line (plain.SetCtl x.now (plain_expr e.now)) (rest_of self.old.left) (point_of self.old)) result self.old self.new }
    {
        match reckon.of_control(e, &self.env) {
            None => fault(line),
            Some(v) => {
                let names = mem::replace(&mut self.env.names, Seq::new(alloc));
                self.env.names = with_value(names, x, v);
                self.left.pass();
                Went::On
            }
        }
    }

    // A loop.
    fn turn<R: Reckon>(&mut self, reckon: &mut R, e: &Expr, body: &'a [Stmt], line: u32) -> Went<'a>
        requires clean { self.old.env.regs ≡ [] }
        requires first { left_of self.old.left ≡ plain.At line (plain.While (plain_expr e.now) (plain_block body.now)) ∷ rest_of self.old.left }
        ensures { Stepped (step_at (setting_of self.old) line (plain.While (plain_expr e.now) (plain_block body.now)) (rest_of self.old.left) (point_of self.old)) result self.old self.new }
    {
        match reckon.of_control(e, &self.env) {
            None => fault(line),
            Some(v) => {
                if is_zero(v) {
                    self.left.pass();
                    Went::On
                } else {
                    Went::Turned(body)
                }
            }
        }
    }

    // A choice.
    fn choose<R: Reckon>(
        &mut self,
        reckon: &mut R,
        e: &Expr,
        first: &'a [Stmt],
        second: &'a [Stmt],
        line: u32,
    ) -> Result<Went<'a>, AllocError>
        requires clean { self.old.env.regs ≡ [] }
        ensures { IfOk result (λ went. Stepped (step_at (setting_of self.old) line (plain.If (plain_expr e.now) (plain_block first.now) (plain_block second.now)) (rest_of self.old.left) (point_of self.old)) went self.old self.new) }
    {
        match reckon.of_control(e, &self.env) {
            None => Ok(fault(line)),
            Some(v) => {
                self.left.pass();
                self.left.enter(taken(v, first, second))?;
                Ok(Went::On)
            }
        }
    }

    // A fork of the task of this name.
    fn fork(&self, alloc: Global, t: &Name, es: &[Expr], line: u32) -> Result<Went<'a>, AllocError>
        requires clean { self.now.env.regs ≡ [] }
        ensures { IfOk result (λ went. (into : Option PlainName) → Stepped (step_at (setting_of self.now) line (plain.Fork t.now (plain_exprs es.now) into) (rest_of self.now.left) (point_of self.now)) went self.now self.now) }
    {
        let Some((k, task)) = named_task(self.program, t) else {
            return Ok(fault(line));
        };
        let k = number(k)?;
        match fork_values(alloc, &mut Plainly, task.params.as_slice(), es, &self.env)? {
            Some(args) => Ok(stop(SyncOp::Fork { task: k, args }, line)),
            None => Ok(fault(line)),
        }
    }

    // A lock cell that a statement names.
    fn lock_at(&self, array: &Name, i: &Atom) -> Option<LockNo>
        requires { cells_in (locks_of (program_of self.now.program.now).heads) ≤ 65536 }
        ensures { result ≡ lock_number_at (setting_of self.now) array.now i.now self.now.env }
    {
        match lock_number(self.program, array, index_of(i, &self.env)) {
            Some(lock) => Some(LockNo(lock)),
            None => None,
        }
    }

    fn barrier(&self, b: &Name, line: u32) -> Result<Went<'a>, AllocError>
        requires clean { self.now.env.regs ≡ [] }
        ensures { IfOk result (λ went. Stepped (step_at (setting_of self.now) line (plain.Barrier b.now) (rest_of self.now.left) (point_of self.now)) went self.now self.now) }
    {
        match barrier_number(self.program.program().heads.as_slice(), b) {
            Some(n) => Ok(stop(SyncOp::Barrier(number(n)?), line)),
            None => Ok(fault(line)),
        }
    }

    fn settle(&self, x: &Name, c: &Name, line: u32) -> Result<Went<'a>, AllocError>
        requires registers { self.now.registers.now ≡ registers_of (plain_task self.now.task.now) }
        requires clean { self.now.env.regs ≡ [] }
        ensures { IfOk result (λ went. Stepped (step_at (setting_of self.now) line (plain.Settle x.now c.now) (rest_of self.now.left) (point_of self.now)) went self.now self.now) }
    {
        let reg = number(register_number(self.registers, x))?;
        let ctl = number(variable_number(self.env.names.as_slice(), c))?;
        Ok(stop(SyncOp::Settle { reg, ctl }, line))
    }

    // A data statement.
    fn act<R: Reckon>(
        &mut self,
        alloc: Global,
        reckon: &mut R,
        what: &What,
        line: u32,
    ) -> Result<Went<'a>, AllocError>
        requires clean { self.old.env.regs ≡ [] }
        requires records { cells_in (records_of (program_of self.old.program.now).heads) ≤ 65536 }
        requires registers { self.old.registers.now ≡ registers_of (plain_task self.old.task.now) }
        requires data { IsTrue (is_data (plain_what what.now)) }
        ensures { IfOk result (λ went. Stepped (step_at (setting_of self.old) line (plain_what what.now) (rest_of self.old.left) (point_of self.old)) went self.old self.new) }
    {
        if fits(what, self.program, &self.env) {
            note(what, self.program, &self.env, &mut self.data.named)?;
            perform(
                alloc,
                reckon,
                what,
                self.program,
                self.registers,
                &self.env,
                &mut self.data,
            )?;
            self.left.pass();
            Ok(Went::On)
        } else {
            Ok(fault(line))
        }
    }

    // One control step. A loop turn is only found.
    fn step<R: Reckon>(&mut self, alloc: Global, reckon: &mut R) -> Result<Went<'a>, AllocError>
        requires locks { cells_in (locks_of (program_of self.old.program.now).heads) ≤ 65536 }
        requires records { cells_in (records_of (program_of self.old.program.now).heads) ≤ 65536 }
        requires registers { self.old.registers.now ≡ registers_of (plain_task self.old.task.now) }
        requires clean { self.old.env.regs ≡ [] }
        ensures { IfOk result (λ went. Stepped (step (setting_of self.old) (point_of self.old)) went self.old self.new) }
    {
        let Some(s) = self.left.first() else {
            return Ok(stop(SyncOp::End, 0));
        };
        let line = s.line;
        reckon.at(line);
        match &s.what {
            What::SetCtl(x, e) => Ok(self.set_control(alloc, reckon, x, e, line)),
            What::While(e, body) => Ok(self.turn(reckon, e, body.as_slice(), line)),
            What::If(e, first, second) => self.choose(
                reckon,
                e,
                first.as_slice(),
                second.as_slice(),
                line,
            ),
            What::Lock(a, i) => match self.lock_at(a, i) {
                Some(lock) => Ok(stop(SyncOp::Lock(lock), line)),
                None => Ok(fault(line)),
            },
            What::Unlock(a, i) => match self.lock_at(a, i) {
                Some(lock) => Ok(stop(SyncOp::Unlock(lock), line)),
                None => Ok(fault(line)),
            },
            What::Fork(t, es, _) => self.fork(alloc, t, es.as_slice(), line),
            What::Join(e, _) => match reckon.of_control(e, &self.env) {
                Some(h) => Ok(stop(SyncOp::Join(h), line)),
                None => Ok(fault(line)),
            },
            What::Barrier(b) => self.barrier(b, line),
            What::Settle(x, c) => self.settle(x, c, line),
            _ => self.act(alloc, reckon, &s.what, line),
        }
    }

    // Steps up to a loop turn or a stop.
    fn stretch<R: Reckon>(&mut self, alloc: Global, reckon: &mut R) -> Result<Went<'a>, AllocError>
        requires locks { cells_in (locks_of (program_of self.old.program.now).heads) ≤ 65536 }
        requires records { cells_in (records_of (program_of self.old.program.now).heads) ≤ 65536 }
        requires registers { self.old.registers.now ≡ registers_of (plain_task self.old.task.now) }
        requires clean { self.old.env.regs ≡ [] }
        ensures came { OnOk result (Came self.old self.new) }
        ensures halts { IfOk result (λ went. Halted (step (setting_of self.new) (point_of self.new)) went self.new) }
    {
        loop {
            match self.step(alloc, reckon)? {
                Went::On => {}
                went => return Ok(went),
            }
        }
    }

    /// Steps up to a stop, with at most so many loop turns.
    pub fn run<R: Reckon>(
        &mut self,
        alloc: Global,
        reckon: &mut R,
        turns: u64,
    ) -> Result<Next, AllocError>
        requires locks { cells_in (locks_of (program_of self.old.program.now).heads) ≤ 65536 }
        requires records { cells_in (records_of (program_of self.old.program.now).heads) ≤ 65536 }
        requires registers { self.old.registers.now ≡ registers_of (plain_task self.old.task.now) }
        requires clean { self.old.env.regs ≡ [] }
        ensures { IfOk result (λ next. Ran (tree_body (setting_of self.old) turns (point_of self.old)) next self.old self.new) }
    {
        let mut left = turns;
        loop {
            match self.stretch(alloc, reckon)? {
                Went::Turned(body) => {
                    if left == 0 {
                        return Ok(Next {
                            sync: SyncOp::Spent,
                            line: 0,
                        });
                    }
                    left -= 1;
                    self.left.enter(body)?;
                }
                Went::Stopped(next) => return Ok(next),
                Went::On => unreachable!(),
            }
        }
    }

    // The registers of a fork's child: each data argument stands in the register of its parameter.
    fn give_registers<R: Reckon>(
        &mut self,
        alloc: Global,
        reckon: &mut R,
        t: &Name,
        es: &[Expr],
    ) -> Result<(), AllocError>
        requires registers { self.old.registers.now ≡ registers_of (plain_task self.old.task.now) }
        requires clean { self.old.env.regs ≡ [] }
        ensures { OnOk result (Gives (fork_named (setting_of self.old) t.now (plain_exprs es.now) (point_of self.old)) self.old self.new) }
    {
        let Some((_, task)) = named_task(self.program, t) else {
            return Ok(());
        };
        let params = task.params.as_slice();
        if fork_values(alloc, reckon, params, es, &self.env)?.is_none() {
            return Ok(());
        }
        let given = register_names(alloc, task)?;
        self.data.child = zeros(alloc, given.len())?;
        give(
            reckon,
            params,
            es,
            given.as_slice(),
            self.registers,
            &self.env,
            &mut self.data,
        );
        Ok(())
    }

    // A fork's variable gets the child's number.
    fn begin_fork(
        &mut self,
        alloc: Global,
        into: &Option<Name>,
        child: Option<usize>,
    ) -> Result<(), AllocError>
        requires clean { self.old.env.regs ≡ [] }
        ensures { OnOk result ((line : ℕ) (t : PlainName) (es : List plain.Expr) → LeadsTo (behind child (point_of self.old) (plain.At line (plain.Fork t es into.now) ∷ rest_of self.old.left)) self.old self.new × (self.new.data ≡ self.old.data)) }
    {
        if let (Some(c), Some(x)) = (child, into) {
            let c = i64::from(number(c)?);
            let names = mem::replace(&mut self.env.names, Seq::new(alloc));
            self.env.names = with_value(names, x, c);
        }
        self.left.pass();
        Ok(())
    }

    // A join's variable gets the value that the joined thread left.
    fn begin_join(&mut self, into: &Option<Name>, joined: i64)
        requires registers { self.old.registers.now ≡ registers_of (plain_task self.old.task.now) }
        requires clean { self.old.env.regs ≡ [] }
        ensures { (child : Option ℕ) (line : ℕ) (e : plain.Expr) → Begun (begin_actions (setting_of self.old) (plain.At line (plain.Join e into.now) ∷ rest_of self.old.left) (point_of self.old)) (behind child (point_of self.old) (plain.At line (plain.Join e into.now) ∷ rest_of self.old.left)) joined self.old self.new }
    {
        if let Some(x) = into {
            let k = register_number(self.registers, x);
            set_number(&mut self.data.registers, k, joined);
            self.left.pass();
            return;
        }
        self.left.pass();
    }

    /// Performs the synchronisation at which the thread stands: a fork's variable gets the child's number and its data
    /// arguments stand in the child's registers; a join's variable gets the value that the joined thread left.
    pub fn begin<R: Reckon>(
        &mut self,
        alloc: Global,
        reckon: &mut R,
        child: Option<usize>,
        joined: i64,
    ) -> Result<(), AllocError>
        requires registers { self.old.registers.now ≡ registers_of (plain_task self.old.task.now) }
        requires clean { self.old.env.regs ≡ [] }
        ensures { OnOk result (Begun (begin_actions (setting_of self.old) (left_of self.old.left) (point_of self.old)) (behind child (point_of self.old) (left_of self.old.left)) joined self.old self.new) }
    {
        let Some(s) = self.left.first() else {
            return Ok(());
        };
        match &s.what {
            What::Fork(t, es, into) => {
                reckon.at(s.line);
                self.give_registers(alloc, reckon, t, es.as_slice())?;
                self.begin_fork(alloc, into, child)
            }
            What::Join(_, into) => Ok(self.begin_join(into, joined)),
            _ => Ok(self.left.pass()),
        }
    }
}
