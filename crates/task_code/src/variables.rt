// The names of the variables of tasks.

ghost use Rattle.std.specs.Prelude.{◌≡◌, ◌++◌, length, map, position, IfOk, OnOk};
ghost use Rattle.task_ast.specs.meaning.Names.{is_name, slot, controls, datas, controls_of, registers_of};
ghost use Rattle.task_ast.specs.View.{plain_task};
ghost use Rattle.task_code.specs.Existing.{params_of};

use gp_base::{Name, Seq};
use std::alloc::{AllocError, Global};
use task_ast::{Param, TaskText};

// Adds the names of the control variables among these.
fn add_controls(alloc: Global, names: &mut Seq<Name>, params: &[Param]) -> Result<(), AllocError>
    ensures { OnOk result (names.new ≡ names.old ++ controls params.now) }
{
    for param in params {
        if let Param::Ctl(name) = param {
            names.push(name.copied(alloc)?)?;
        }
    }
    Ok(())
}

// Adds the names of the data variables among these.
fn add_datas(alloc: Global, names: &mut Seq<Name>, params: &[Param]) -> Result<(), AllocError>
    ensures { OnOk result (names.new ≡ names.old ++ datas params.now) }
{
    for param in params {
        if let Param::Reg(name) = param {
            names.push(name.copied(alloc)?)?;
        }
    }
    Ok(())
}

// How many control variables are among these.
fn count_controls(params: &[Param]) -> usize
    ensures { result ≡ length (controls params.now) }
{
    let mut count: usize = 0;
    for param in params {
        if let Param::Ctl(_) = param {
            count += 1;
        }
    }
    count
}

/// How many control parameters each task has.
pub fn all_params(alloc: Global, tasks: &[TaskText]) -> Result<Seq<usize>, AllocError>
    ensures { IfOk result (λ all. all ≡ map params_of (map plain_task tasks.now)) }
{
    let mut all = Seq::new(alloc);
    for task in tasks {
        all.push(count_controls(task.params.as_slice()))?;
    }
    Ok(all)
}

/// The names of a task's control variables, in declared order.
pub fn control_names(alloc: Global, task: &TaskText) -> Result<Seq<Name>, AllocError>
    ensures { IfOk result (λ names. names ≡ controls_of (plain_task task.now)) }
{
    let mut names = Seq::new(alloc);
    add_controls(alloc, &mut names, task.params.as_slice())?;
    for line in task.vars.as_slice() {
        add_controls(alloc, &mut names, line.names.as_slice())?;
    }
    Ok(names)
}

/// The names of a task's registers: `$ret`, then its data variables in declared order.
pub fn register_names(alloc: Global, task: &TaskText) -> Result<Seq<Name>, AllocError>
    ensures { IfOk result (λ names. names ≡ registers_of (plain_task task.now)) }
{
    let mut names = Seq::new(alloc);
    names.push(Name::from_slice(alloc, b"ret")?)?;
    add_datas(alloc, &mut names, task.params.as_slice())?;
    for line in task.vars.as_slice() {
        add_datas(alloc, &mut names, line.names.as_slice())?;
    }
    Ok(names)
}

/// The place of the first of these names that is this one, or `None` where there is none.
pub fn place(names: &[Name], x: &Name) -> Option<usize>
    ensures { result ≡ position (is_name x.now) names.now }
{
    names
        .iter()
        .position(|name| x.as_slice() == name.as_slice())
}

/// The same, or how many names there are where there is none.
pub fn slot(names: &[Name], x: &Name) -> usize
    ensures { result ≡ slot names.now x.now }
{
    place(names, x).unwrap_or(names.len())
}
