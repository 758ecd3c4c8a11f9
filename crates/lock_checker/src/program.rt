// The check of a program.
ghost use Rattle.std.specs.Prelude.{◌≡◌, None, List, [], ◌∷◌, map, IsTrue, OnOk, IfOk, IfErr};
ghost use Rattle.task_ast.specs.meaning.Held.{Pair as PlainPair};
ghost use Rattle.task_ast.specs.meaning.Names.{head_name};
ghost use Rattle.task_ast.specs.meaning.Declarations.{head_visits};
ghost use Rattle.task_ast.specs.meaning.Check.{check_fault, held_fails, body_visits, bodies_visits, program_visits};
ghost use Rattle.task_ast.specs.Shaped.{is_shaped};
ghost use Rattle.task_ast.specs.View.{plain_task, plain_program};
ghost use Rattle.lock_checker.specs.Accepted.{program_of, IsFaultOf};
ghost use Rattle.lock_checker.specs.inner.Heads.{HasNames};
ghost use Rattle.lock_checker.specs.inner.Indexes.{IsIndexOf};
ghost use Rattle.task_ast.specs.meaning.Visit.{visit};
ghost use Rattle.lock_checker.specs.inner.Pairs.{pairs_in, HaveSame};
ghost use Rattle.lock_checker.specs.inner.Faults.{Passes};

use crate::checked::Checked;
use crate::fault::CheckFault;
use crate::heads::{Heads, line_of};
use crate::held::Pairs;
use crate::index::{ProgramIndex, index_of};
use crate::scope::Scope;
use crate::symbol_table::SymbolTable;
use crate::tasks::{check_main, check_tasks};
use crate::variables::variables_of;
use crate::walk::check_block;
use std::alloc::Global;
use task_ast::{CheckKind, Program, TaskText};

// Checks the heads, and gives their names.
fn check_heads(
    alloc: Global,
    index: &ProgramIndex,
    program: &Program,
) -> Result<SymbolTable<()>, CheckFault>
    requires { IsIndexOf index.now program.now }
    ensures visits { Passes result (head_visits (plain_program program.now) [] program.now.heads) }
    ensures names { IfOk result (λ names. HasNames names (map head_name program.now.heads)) }
{
    let mut heads = Heads::new(alloc);
    for head in program.heads.as_slice() {
        if let Some(kind) = heads.rule_at(index, head) {
            return Err(CheckFault::Bad {
                kind,
                line: line_of(head),
            });
        }
        heads.add(head)?;
    }
    Ok(heads.names)
}

// Checks that nothing is held at the end of the task of this line.
fn check_end(line: u32, held: &Pairs) -> Result<(), CheckFault>
    ensures { (after : List PlainPair) → HaveSame (pairs_in held.now) after → Passes result (visit line (held_fails after) ∷ []) }
{
    if held.is_empty() {
        Ok(())
    } else {
        Err(CheckFault::Bad {
            kind: CheckKind::HeldAtEnd,
            line,
        })
    }
}

#[tactic(auto, using(crate::proofs::VisitLemmas::inside_told))]
fn check_body<'a>(
    alloc: Global,
    index: &ProgramIndex<'a>,
    program: &'a Program,
    task: &'a TaskText,
) -> Result<(), CheckFault>
    requires { IsIndexOf index.now program.now }
    ensures { Passes result (body_visits (plain_program program.now) (plain_task task.now)) }
{
    let variables = variables_of(alloc, task)?;
    let scope = Scope {
        program,
        task,
        index,
        variables: &variables,
    };
    let mut held = Pairs::new(alloc);
    match check_block(alloc, &scope, task.body.as_slice(), &mut held) {
        Ok(_) => check_end(task.line, &held),
        Err(fault) => Err(fault),
    }
}

fn check_bodies<'a>(
    alloc: Global,
    index: &ProgramIndex<'a>,
    program: &'a Program,
) -> Result<(), CheckFault>
    requires { IsIndexOf index.now program.now }
    ensures { Passes result (bodies_visits (plain_program program.now) (map plain_task program.now.tasks)) }
{
    for task in program.tasks.as_slice() {
        match check_body(alloc, index, program, task) {
            Ok(()) => {}
            Err(fault) => return Err(fault),
        }
    }
    Ok(())
}

// Checks a program under its index: its heads, the heads of its tasks, that there is a task `main`, and the bodies.
#[tactic(auto, using(crate::proofs::VisitLemmas::inside_told))]
fn check_indexed<'a>(
    alloc: Global,
    index: &ProgramIndex<'a>,
    program: &'a Program,
) -> Result<(), CheckFault>
    requires { IsIndexOf index.now program.now }
    ensures { Passes result (program_visits (plain_program program.now)) }
{
    let names = match check_heads(alloc, index, program) {
        Ok(names) => names,
        Err(fault) => return Err(fault),
    };
    match check_tasks(alloc, names, program.tasks.as_slice()) {
        Ok(()) => {}
        Err(fault) => return Err(fault),
    }
    match check_main(program) {
        Ok(()) => {}
        Err(fault) => return Err(fault),
    }
    check_bodies(alloc, index, program)
}

fn check_program(alloc: Global, program: &Program) -> Result<(), CheckFault>
    ensures { Passes result (program_visits (plain_program program.now)) }
{
    let index = index_of(alloc, program)?;
    check_indexed(alloc, &index, program)
}

/// Accepts a program that keeps all rules of names, counts and held locks, and else answers the rule that fails first,
/// with the line of the head, the var line, the statement or the task where it does. The only other error is out of
/// memory.
pub fn check(alloc: Global, p: Program) -> Result<Checked, CheckFault>
    requires shaped { IsTrue (is_shaped (plain_program p)) }
    ensures same { IfOk result (λ checked. program_of checked ≡ p) }
    ensures accepted { OnOk result (check_fault (plain_program p) ≡ None) }
    ensures fault { IfErr result (λ fault. IsFaultOf fault p) }
{
    match check_program(alloc, &p) {
        Ok(()) => Ok(Checked::of(alloc, p)?),
        Err(fault) => Err(fault),
    }
}
