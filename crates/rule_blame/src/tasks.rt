// The blames of tasks and of their var lines, and of names that are declared twice.
ghost use Rattle.std.specs.Prelude.{◌≡◌, ◌+◌, ◌≤◌, ℕ, IfOk, IfSome, length};
ghost use Rattle.task_ast.specs.meaning.Names.{is_name, declared_in};
ghost use Rattle.task_ast.specs.meaning.Declarations.{main};
ghost use Rattle.task_ast.specs.View.{plain_task, plain_program};
ghost use Rattle.rule_blame.specs.Blames.{IsTrue};
ghost use Rattle.rule_blame.specs.Told.{IsTrueOfTask};

use crate::blames::{Blame, Many};
use crate::entries::{find_twice, globals, variables};
use crate::scope::{declares_data, task_named};
use gp_base::Name;
use gp_base::limits::MOST_VARIABLES;
use std::alloc::{AllocError, Global};
use task_ast::{CheckKind, Program, TaskText, VarLine};

/// That there is no task `main`.
pub fn no_main<'a>(program: &'a Program) -> Option<Blame<'a>>
    ensures { IfSome result (λ told. (line : ℕ) → IsTrue (plain_program program.now) line told) }
{
    match task_named(program, b"main") {
        Some(_) => None,
        None => Some(Blame::NoMain),
    }
}

fn is_main(x: &Name) -> bool
    ensures { result ≡ is_name x.now main }
{
    x.as_slice() == b"main".as_slice()
}

// That `main` has parameters.
fn main_takes<'a>(program: &'a Program, line: u32) -> Option<Blame<'a>>
    ensures { IfSome result (IsTrue (plain_program program.now) line) }
{
    for task in program.tasks.as_slice() {
        if task.line == line && is_main(&task.name) && !task.params.is_empty() {
            return Some(Blame::MainTakes);
        }
    }
    None
}

// A control variable, or a data variable, of the task that is declared twice.
fn variable_twice<'a>(
    alloc: Global,
    dollar: bool,
    task: &'a TaskText,
    line: u32,
) -> Result<Option<Blame<'a>>, AllocError>
    ensures { IfOk result (λ found. IfSome found (IsTrueOfTask (plain_task task.now) line)) }
{
    let entries = variables(alloc, dollar, task)?;
    match find_twice(&entries, line) {
        Some(twice) => Ok(Some(Blame::VariableTwice {
            dollar,
            name: twice.name,
            first: twice.first,
        })),
        None => Ok(None),
    }
}

// A variable of the task that was declared before.
fn double_variable<'a>(
    alloc: Global,
    task: &'a TaskText,
    line: u32,
) -> Result<Option<Blame<'a>>, AllocError>
    ensures { IfOk result (λ found. IfSome found (IsTrueOfTask (plain_task task.now) line)) }
{
    if let Some(told) = variable_twice(alloc, false, task, line)? {
        return Ok(Some(told));
    }
    if let Some(told) = variable_twice(alloc, true, task, line)? {
        return Ok(Some(told));
    }
    Ok(None)
}

// The variables of these lines and so many others, where a `usize` holds their number.
fn count_variables(others: usize, lines: &[VarLine]) -> Option<usize>
    ensures { IfSome result (λ count. count ≡ others + length (declared_in lines.now)) }
{
    let mut count = others;
    for vars in lines {
        count = count.checked_add(vars.names.len())?;
    }
    Some(count)
}

// That the task has too many variables up to so many of its var lines.
fn too_many_with<'a>(task: &'a TaskText, lines: usize) -> Option<Blame<'a>>
    requires { lines ≤ length task.now.vars }
    ensures { IfSome result (λ told. (line : ℕ) → IsTrueOfTask (plain_task task.now) line told) }
{
    let count = count_variables(task.params.len(), &task.vars.as_slice()[..lines])?;
    let count = (count as u64).checked_add(1)?;
    if count <= MOST_VARIABLES as u64 {
        return None;
    }
    Some(Blame::TooMany {
        what: Many::Variables,
        name: &task.name,
        count,
    })
}

// That the task has too many variables up to the line.
fn too_many_variables<'a>(task: &'a TaskText, line: u32) -> Option<Blame<'a>>
    ensures { IfSome result (IsTrueOfTask (plain_task task.now) line) }
{
    if task.line == line {
        if let Some(told) = too_many_with(task, 0) {
            return Some(told);
        }
    }
    for (at, vars) in task.vars.as_slice().iter().enumerate() {
        if vars.line == line {
            if let Some(told) = too_many_with(task, at + 1) {
                return Some(told);
            }
        }
    }
    None
}

// What the rule is about in the parameters and var lines of a task.
fn task_blame_of<'a>(
    alloc: Global,
    task: &'a TaskText,
    kind: CheckKind,
    line: u32,
) -> Result<Option<Blame<'a>>, AllocError>
    ensures { IfOk result (λ found. IfSome found (IsTrueOfTask (plain_task task.now) line)) }
{
    match kind {
        CheckKind::DoubleName => double_variable(alloc, task, line),
        CheckKind::TooMany => Ok(too_many_variables(task, line)),
        _ => Ok(None),
    }
}

// The head or the task that is declared twice, the second time in the line.
fn double_global<'a>(
    alloc: Global,
    program: &'a Program,
    line: u32,
) -> Result<Option<Blame<'a>>, AllocError>
    ensures { IfOk result (λ found. IfSome found (IsTrue (plain_program program.now) line)) }
{
    let entries = globals(alloc, program)?;
    match find_twice(&entries, line) {
        Some(twice) => Ok(Some(Blame::Twice {
            name: twice.name,
            first: twice.first,
        })),
        None => Ok(None),
    }
}

// What the rule is about in the variables of a task.
fn variables_blame<'a>(
    alloc: Global,
    program: &'a Program,
    kind: CheckKind,
    line: u32,
) -> Result<Option<Blame<'a>>, AllocError>
    ensures { IfOk result (λ found. IfSome found (IsTrue (plain_program program.now) line)) }
{
    for task in program.tasks.as_slice() {
        if let Some(told) = task_blame_of(alloc, task, kind, line)? {
            return Ok(Some(told));
        }
    }
    Ok(None)
}

// `$ret`, where a task declares it.
fn return_blame<'a>(program: &'a Program) -> Option<Blame<'a>>
    ensures { IfSome result (λ told. (line : ℕ) → IsTrue (plain_program program.now) line told) }
{
    for task in program.tasks.as_slice() {
        if declares_data(task, b"ret") {
            return Some(Blame::Return);
        }
    }
    None
}

// The name that is declared twice, the second time in the line.
fn double_blame<'a>(
    alloc: Global,
    program: &'a Program,
    line: u32,
) -> Result<Option<Blame<'a>>, AllocError>
    ensures { IfOk result (λ found. IfSome found (IsTrue (plain_program program.now) line)) }
{
    if let Some(told) = double_global(alloc, program, line)? {
        return Ok(Some(told));
    }
    if let Some(told) = variables_blame(alloc, program, CheckKind::DoubleName, line)? {
        return Ok(Some(told));
    }
    Ok(return_blame(program))
}

/// What the rule is about in the head of a task, its parameters or its var lines.
pub fn task_blame<'a>(
    alloc: Global,
    program: &'a Program,
    kind: CheckKind,
    line: u32,
) -> Result<Option<Blame<'a>>, AllocError>
    ensures { IfOk result (λ found. IfSome found (IsTrue (plain_program program.now) line)) }
{
    match kind {
        CheckKind::DoubleName => double_blame(alloc, program, line),
        CheckKind::WrongCount => Ok(main_takes(program, line)),
        CheckKind::TooMany => variables_blame(alloc, program, kind, line),
        _ => Ok(None),
    }
}
