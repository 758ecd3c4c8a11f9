// The variables of tasks and threads.
ghost use Rattle.std.specs.Prelude.{◌≡◌, ◌++◌, [], replicate, position, slice_set, unwrap_or, length, pos, IfOk, OnOk};
ghost use Rattle.task_ast.specs.meaning.Names.{is_name, datas, controls, declared_in, registers_of};
ghost use Rattle.task_ast.specs.meaning.State.{number_at};
ghost use Rattle.task_ast.specs.meaning.Control.{with_value, with_number};
ghost use Rattle.task_ast.specs.meaning.Plain.{given};
ghost use Rattle.task_ast.specs.View.{plain_task};
ghost use Rattle.one_thread.specs.inner.Places.{IsPlaceOf};

use crate::cells::same_name;
use gp_base::{Name, Nums, Seq};
use std::alloc::{AllocError, Global};
use task_ast::{Param, TaskText, VarLine};

// Adds the names of the data variables among these.
fn add_datas(alloc: Global, names: &mut Seq<Name>, params: &[Param]) -> Result<(), AllocError>
    ensures { OnOk result (names.new ≡ names.old ++ datas params.now) }
{
    for param in params {
        if let Param::Reg(name) = param {
            names.push(name.copied(alloc)?)?;
        }
    }
    Ok(())
}

// Adds the names of the data variables of these lines.
fn add_declared(alloc: Global, names: &mut Seq<Name>, lines: &[VarLine]) -> Result<(), AllocError>
    ensures { OnOk result (names.new ≡ names.old ++ datas (declared_in lines.now)) }
{
    for line in lines {
        add_datas(alloc, names, line.names.as_slice())?;
    }
    Ok(())
}

/// The names of a task's registers: `$ret`, then its data variables in declared order.
pub fn register_names(alloc: Global, task: &TaskText) -> Result<Seq<Name>, AllocError>
    ensures { IfOk result (λ names. names ≡ registers_of (plain_task task.now)) }
{
    let mut names = Seq::new(alloc);
    names.push(Name::from_slice(alloc, b"ret")?)?;
    add_datas(alloc, &mut names, task.params.as_slice())?;
    add_declared(alloc, &mut names, task.vars.as_slice())?;
    Ok(names)
}

/// The place of the first of these names that is this one, or `None` where there is none.
pub fn register_place(names: &[Name], x: &Name) -> Option<usize>
    ensures { result ≡ position (is_name x.now) names.now }
{
    names.iter().position(|name| same_name(x, name))
}

// Adds the control variables among these, with the given values in order; one without a value has 0.
fn add_controls(
    alloc: Global,
    names: &mut Seq<(Name, i64)>,
    params: &[Param],
    values: &[i64],
) -> Result<(), AllocError>
    ensures { OnOk result (names.new ≡ names.old ++ given (controls params.now) values.now) }
{
    let mut count: usize = 0;
    for param in params {
        match param {
            Param::Ctl(name) => {
                let value = number_at(values, count);
                names.push((name.copied(alloc)?, value))?;
                count += 1;
            }
            Param::Reg(_) => {}
        }
    }
    Ok(())
}

/// The control variables of a task, of which the parameters have these values and the others are 0.
pub fn control_variables(
    alloc: Global,
    task: &TaskText,
    arguments: &[i64],
) -> Result<Seq<(Name, i64)>, AllocError>
    ensures { IfOk result (λ names. names ≡ given (controls task.now.params) arguments.now ++ given (controls (declared_in task.now.vars)) []) }
{
    let mut names = Seq::new(alloc);
    add_controls(alloc, &mut names, task.params.as_slice(), arguments)?;
    for line in task.vars.as_slice() {
        add_controls(alloc, &mut names, line.names.as_slice(), &[])?;
    }
    Ok(names)
}

/// The number at a place of a list, or 0.
pub fn number_at(numbers: &[i64], k: usize) -> i64
    ensures { result ≡ number_at numbers.now k }
{
    match numbers.get(k) {
        Some(number) => *number,
        None => 0,
    }
}

/// Sets the number at a place of a list, where there is one.
pub fn set_number(numbers: &mut Nums, k: usize, value: i64)
    ensures { numbers.new ≡ slice_set numbers.old k value }
{
    if k < numbers.len() {
        numbers.set(k, value);
    }
}

/// So many numbers, each 0.
pub fn zeros(alloc: Global, count: usize) -> Result<Nums, AllocError>
    ensures { IfOk result (λ numbers. numbers ≡ replicate count (pos 0)) }
{
    Ok(Seq::from_vec(Vec::from_elem(alloc, 0, count)?))
}

// The place of the first control variable of a name.
fn place_of(names: &[(Name, i64)], name: &Name) -> Option<usize>
    ensures { IsPlaceOf names.now name.now result }
{
    for at in 0..names.len() {
        if same_name(name, &names[at].0) {
            return Some(at);
        }
    }
    None
}

/// The control variables with a new value beside the first of a name.
pub fn with_value(names: Seq<(Name, i64)>, name: &Name, value: i64) -> Seq<(Name, i64)>
    ensures { result ≡ with_value names name.now value }
{
    let at = place_of(names.as_slice(), name);
    let mut pairs = names.into_vec();
    if let Some(at) = at {
        pairs[at].1 = value;
    }
    Seq::from_vec(pairs)
}

// The place of the first control variable of this name, or `None` where there is none.
fn variable_place(names: &[(Name, i64)], x: &Name) -> Option<usize>
    ensures { result ≡ position (λ n. is_name x.now n.0) names.now }
{
    names.iter().position(|pair| same_name(x, &pair.0))
}

/// The number of a control variable.
pub fn variable_number(names: &[(Name, i64)], x: &Name) -> usize
    ensures { result ≡ unwrap_or (position (λ n. is_name x.now n.0) names.now) (length names.now) }
{
    variable_place(names, x).unwrap_or(names.len())
}

/// The control variables with a new value at a place.
pub fn with_number(names: Seq<(Name, i64)>, at: usize, value: i64) -> Seq<(Name, i64)>
    ensures { result ≡ with_number names at value }
{
    let mut pairs = names.into_vec();
    if at < pairs.len() {
        pairs[at].1 = value;
    }
    Seq::from_vec(pairs)
}
