// What a rule of the check is about in a line of a program.
ghost use Rattle.std.specs.Prelude.{Contains, IfOk, IfSome};
ghost use Rattle.task_ast.specs.View.{plain_program};
ghost use Rattle.rule_blame.specs.Blames.{IsTrue};

use crate::blames::{Blame, Told};
use crate::heads::head_blame;
use crate::held::first;
use crate::points::{Passed, Walk, walk_block};
use crate::scope::Scope;
use crate::tasks::{no_main, task_blame};
use std::alloc::{AllocError, Global};
use task_ast::{CheckKind, Program, TaskText};

// What the rule is about in the statements of a task, or at its end.
fn body_blame<'a>(
    alloc: Global,
    program: &'a Program,
    task: &'a TaskText,
    kind: CheckKind,
    line: u32,
    passed: &mut Passed<'a>,
) -> Result<Option<Told<'a>>, AllocError>
    ensures { IfOk result (λ found. Contains program.now.tasks task.now → IfSome found (λ told. IsTrue (plain_program program.now) line told.blame)) }
{
    let mut held = Vec::new(alloc);
    let scope = Scope { program, task };
    let walk = Walk { scope, kind, line };
    if let Some(blame) = walk_block(alloc, walk, task.body.as_slice(), &mut held, passed)? {
        return Ok(Some(Told {
            blame,
            statement: passed.told(),
            held,
        }));
    }
    if kind != CheckKind::HeldAtEnd || task.line != line {
        return Ok(None);
    }
    match first(&held) {
        Some(taken) => Ok(Some(Told {
            blame: Blame::KeptAtEnd {
                taken,
                task: &task.name,
            },
            statement: None,
            held,
        })),
        None => Ok(None),
    }
}

// What the rule is about in the statements of all tasks.
fn bodies_blame<'a>(
    alloc: Global,
    program: &'a Program,
    kind: CheckKind,
    line: u32,
) -> Result<Option<Told<'a>>, AllocError>
    ensures { IfOk result (λ found. IfSome found (λ told. IsTrue (plain_program program.now) line told.blame)) }
{
    let mut passed = Passed::new();
    for task in program.tasks.as_slice() {
        if let Some(told) = body_blame(alloc, program, task, kind, line, &mut passed)? {
            return Ok(Some(told));
        }
    }
    Ok(None)
}

// What the rule is about outside of statements: the heads, the heads of tasks, whether there is a `main`.
fn outer_blame<'a>(
    alloc: Global,
    program: &'a Program,
    kind: CheckKind,
    line: u32,
) -> Result<Option<Blame<'a>>, AllocError>
    ensures { IfOk result (λ found. IfSome found (IsTrue (plain_program program.now) line)) }
{
    if let Some(blame) = head_blame(program, kind, line) {
        return Ok(Some(blame));
    }
    if let Some(blame) = task_blame(alloc, program, kind, line)? {
        return Ok(Some(blame));
    }
    if kind == CheckKind::UnknownName && line == 1 {
        return Ok(no_main(program));
    }
    Ok(None)
}

fn any_blame<'a>(
    alloc: Global,
    program: &'a Program,
    kind: CheckKind,
    line: u32,
) -> Result<Option<Told<'a>>, AllocError>
    ensures { IfOk result (λ found. IfSome found (λ told. IsTrue (plain_program program.now) line told.blame)) }
{
    match outer_blame(alloc, program, kind, line)? {
        Some(blame) => Ok(Some(Told {
            blame,
            statement: None,
            held: Vec::new(alloc),
        })),
        None => bodies_blame(alloc, program, kind, line),
    }
}

/// What the rule is about in the line, where the check has refused the program with that rule and that line: the first
/// that breaks it, in the order of the check. What is told is true of the program. `None` where nothing in the line breaks
/// the rule, or memory runs out.
pub fn blame<'a>(
    alloc: Global,
    program: &'a Program,
    kind: CheckKind,
    line: u32,
) -> Option<Told<'a>>
    ensures { IfSome result (λ told. IsTrue (plain_program program.now) line told.blame) }
{
    match any_blame(alloc, program, kind, line) {
        Ok(found) => found,
        Err(_) => None,
    }
}
