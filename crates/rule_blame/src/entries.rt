// What is declared in a space of names, each with its line.
ghost use Rattle.std.specs.Prelude.{◌≡◌, ◌∷◌, ◌++◌, ℕ, List, Contains, IfOk, IfSome, MatchOption, OnOk, map};
ghost use Rattle.task_ast.specs.declared.tree.Head.{Head as PlainHead};
ghost use Rattle.task_ast.specs.declared.tree.Param.{Param as PlainParam};
ghost use Rattle.task_ast.specs.meaning.Tree.{TaskText as PlainTask};
ghost use Rattle.task_ast.specs.meaning.Names.{head_name};
ghost use Rattle.task_ast.specs.meaning.Declarations.{head_line};
ghost use Rattle.task_ast.specs.View.{plain_task, plain_program};
ghost use Rattle.rule_blame.specs.DeclaredNames.{globals, entries_of, line_entries, variables, IsTwice};
ghost use Rattle.rule_blame.specs.Views.{entries_in};

use crate::scope::same_name;
use gp_base::Name;
use std::alloc::{AllocError, Global};
use task_ast::{Head, Param, Program, TaskText, VarLine};

/// A name and the line that declares it.
#[derive(Clone, Copy)]
pub struct Entry<'a> {
    pub name: &'a Name,
    pub line: u32,
}

pub fn head_name(head: &Head) -> &Name
    ensures { result.now ≡ head_name head.now }
{
    match head {
        Head::LockHead { name, .. } => name,
        Head::BarrierHead { name, .. } => name,
        Head::RecHead { name, .. } => name,
        Head::FeedHead { name, .. } => name,
    }
}

pub fn head_line(head: &Head) -> u32
    ensures { result ≡ head_line head.now }
{
    match head {
        Head::LockHead { line, .. } => *line,
        Head::BarrierHead { line, .. } => *line,
        Head::RecHead { line, .. } => *line,
        Head::FeedHead { line, .. } => *line,
    }
}

#[tactic(auto, using(crate::proofs::Appends::appends))]
fn push_heads<'a>(entries: &mut Vec<Entry<'a>>, heads: &'a [Head]) -> Result<(), AllocError>
    ensures { OnOk result (entries_in entries.new.items ≡ entries_in entries.old.items ++ map (λ (h : PlainHead). (head_name h, head_line h)) heads.now) }
{
    for head in heads {
        entries.push(Entry {
            name: head_name(head),
            line: head_line(head),
        })?;
    }
    Ok(())
}

#[tactic(auto, using(crate::proofs::Appends::appends))]
fn push_tasks<'a>(entries: &mut Vec<Entry<'a>>, tasks: &'a [TaskText]) -> Result<(), AllocError>
    ensures { OnOk result (entries_in entries.new.items ≡ entries_in entries.old.items ++ map (λ (t : PlainTask). (t.name, t.line)) (map plain_task tasks.now)) }
{
    for task in tasks {
        entries.push(Entry {
            name: &task.name,
            line: task.line,
        })?;
    }
    Ok(())
}

/// The heads and the tasks of a program.
#[tactic(auto, using(crate::proofs::Appends::appends))]
pub fn globals<'a>(alloc: Global, program: &'a Program) -> Result<Vec<Entry<'a>>, AllocError>
    ensures { IfOk result (λ entries. entries_in entries.items ≡ globals (plain_program program.now)) }
{
    let mut entries = Vec::new(alloc);
    push_heads(&mut entries, program.heads.as_slice())?;
    push_tasks(&mut entries, program.tasks.as_slice())?;
    Ok(entries)
}

// The data variable, or the control variable.
fn name_of(dollar: bool, param: &Param) -> Option<&Name>
    ensures { (line : ℕ) (rest : List PlainParam) → MatchOption result
        (entries_of dollar line (param.now ∷ rest) ≡ entries_of dollar line rest)
        (λ name. entries_of dollar line (param.now ∷ rest) ≡ (name.now, line) ∷ entries_of dollar line rest) }
{
    match param {
        Param::Reg(x) => if dollar { Some(x) } else { None },
        Param::Ctl(x) => if dollar { None } else { Some(x) },
    }
}

#[tactic(auto, using(crate::proofs::Appends::appends))]
fn push_params<'a>(
    entries: &mut Vec<Entry<'a>>,
    dollar: bool,
    line: u32,
    params: &'a [Param],
) -> Result<(), AllocError>
    ensures { OnOk result (entries_in entries.new.items ≡ entries_in entries.old.items ++ entries_of dollar line params.now) }
{
    for param in params {
        if let Some(name) = name_of(dollar, param) {
            entries.push(Entry { name, line })?;
        }
    }
    Ok(())
}

#[tactic(auto, using(crate::proofs::Appends::appends))]
fn push_lines<'a>(
    entries: &mut Vec<Entry<'a>>,
    dollar: bool,
    lines: &'a [VarLine],
) -> Result<(), AllocError>
    ensures { OnOk result (entries_in entries.new.items ≡ entries_in entries.old.items ++ line_entries dollar lines.now) }
{
    for vars in lines {
        push_params(entries, dollar, vars.line, vars.names.as_slice())?;
    }
    Ok(())
}

/// The data variables of a task but `$ret`, or its control variables.
#[tactic(auto, using(crate::proofs::Appends::appends))]
pub fn variables<'a>(
    alloc: Global,
    dollar: bool,
    task: &'a TaskText,
) -> Result<Vec<Entry<'a>>, AllocError>
    ensures { IfOk result (λ entries. entries_in entries.items ≡ variables dollar (plain_task task.now)) }
{
    let mut entries = Vec::new(alloc);
    push_params(&mut entries, dollar, task.line, task.params.as_slice())?;
    push_lines(&mut entries, dollar, task.vars.as_slice())?;
    Ok(entries)
}

// The first of these entries that has the name.
#[tactic(auto, using(crate::proofs::Appends::entry_among))]
fn first_of<'a>(entries: &[Entry<'a>], name: &Name) -> Option<Entry<'a>>
    ensures { IfSome result (λ first. Contains (entries_in entries.now) (name.now, first.line)) }
{
    for entry in entries {
        if same_name(name, entry.name) {
            return Some(*entry);
        }
    }
    None
}

/// A name that is declared in a line and stands among the entries before, with the line of the first of these.
#[derive(Clone, Copy)]
pub struct Twice<'a> {
    pub name: &'a Name,
    pub first: u32,
}

/// The first name of these entries that is declared twice, the second time in the line.
pub fn find_twice<'a>(entries: &[Entry<'a>], line: u32) -> Option<Twice<'a>>
    ensures { IfSome result (λ twice. IsTwice (entries_in entries.now) twice.name.now twice.first line) }
{
    for (at, entry) in entries.iter().enumerate() {
        if entry.line == line {
            if let Some(first) = first_of(&entries[..at], entry.name) {
                return Some(Twice {
                    name: entry.name,
                    first: first.line,
                });
            }
        }
    }
    None
}
