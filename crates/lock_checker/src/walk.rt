// The walk over a task's body with the pairs held.
ghost use Rattle.std.specs.Prelude.{◌≡◌, List};
ghost use Rattle.task_ast.specs.meaning.Check.{visits_of, visits_in};
ghost use Rattle.task_ast.specs.meaning.Held.{Pair as PlainPair, held_after, held_at_end};
ghost use Rattle.task_ast.specs.View.{plain_stmt, plain_block};
ghost use Rattle.lock_checker.specs.inner.Scopes.{scope_of, IsScope};
ghost use Rattle.lock_checker.specs.inner.Pairs.{pairs_in, HaveSame};
ghost use Rattle.lock_checker.specs.inner.Faults.{Walks, WalksAside, later_visits};

use crate::ends::{end_branches, end_choice, end_loop, no_changes};
use crate::fault::CheckFault;
use crate::held::Pairs;
use crate::pair::Pair;
use crate::rules::rule_at;
use crate::scope::Scope;
use std::alloc::Global;
use task_ast::{Stmt, What};

/// Checks the statements of a block, from the pairs held before it to those held after it, and gives the changes.
#[cycle(walk)]
pub fn check_block<'a>(
    alloc: Global,
    scope: &Scope<'_, 'a>,
    block: &'a [Stmt],
    held: &mut Pairs<'a>,
) -> Result<Vec<Pair<'a>>, CheckFault>
    requires { IsScope scope.now }
    ensures { (before : List PlainPair) → HaveSame (pairs_in held.old) before → Walks result before (pairs_in held.new) (visits_in (scope_of scope.now) (plain_block block.now) before) (held_at_end (plain_block block.now) before) }
{
    let mut changes = Vec::new(alloc);
    for s in block {
        match check_statement(alloc, scope, s, held) {
            Ok(more) => changes.extend_from_slice(&more)?,
            Err(fault) => return Err(fault),
        }
    }
    Ok(changes)
}

// Checks a statement, from the pairs held before it to those held after it, and gives the changes.
#[cycle(walk)]
#[tactic(auto, using(task_ast::proofs::Views::view, crate::proofs::VisitLemmas::first_told))]
fn check_statement<'a>(
    alloc: Global,
    scope: &Scope<'_, 'a>,
    s: &'a Stmt,
    held: &mut Pairs<'a>,
) -> Result<Vec<Pair<'a>>, CheckFault>
    requires { IsScope scope.now }
    ensures { Walks result (pairs_in held.old) (pairs_in held.new) (visits_of (scope_of scope.now) (plain_stmt s.now) (pairs_in held.old)) (held_after (plain_stmt s.now) (pairs_in held.old)) }
{
    match rule_at(scope, &s.what, held) {
        Some(kind) => Err(CheckFault::Bad { kind, line: s.line }),
        None => check_inside(alloc, scope, s, held),
    }
}

// Checks the blocks of a statement and its end.
#[cycle(walk)]
#[tactic(auto, using(task_ast::proofs::Views::view, crate::proofs::VisitLemmas::inside_told))]
fn check_inside<'a>(
    alloc: Global,
    scope: &Scope<'_, 'a>,
    s: &'a Stmt,
    held: &mut Pairs<'a>,
) -> Result<Vec<Pair<'a>>, CheckFault>
    requires { IsScope scope.now }
    ensures { Walks result (pairs_in held.old) (pairs_in held.new) (later_visits (scope_of scope.now) (plain_stmt s.now) (pairs_in held.old)) (held_after (plain_stmt s.now) (pairs_in held.old)) }
{
    match &s.what {
        What::While(_, body) => {
            let body = check_aside(alloc, scope, body.as_slice(), held);
            end_loop(alloc, s.line, body)
        }
        What::If(_, first, second) => match check_aside(alloc, scope, first.as_slice(), held) {
            Ok(other) => {
                let second = check_block(alloc, scope, second.as_slice(), held);
                end_branches(alloc, s.line, &other, second)
            }
            Err(fault) => Err(fault),
        },
        What::When(_, first, second) => match check_aside(alloc, scope, first.as_slice(), held) {
            Ok(_first) => {
                let second = check_aside(alloc, scope, second.as_slice(), held);
                end_choice(second)
            }
            Err(fault) => Err(fault),
        },
        What::Lock(array, index) => Ok(held.insert(alloc, Pair::new(array, index))?),
        What::Unlock(array, index) => Ok(held.remove(alloc, Pair::new(array, index))?),
        _ => Ok(no_changes(alloc)),
    }
}

// Checks a block, goes back to the pairs held before it, and gives the changes that the block makes.
#[cycle(walk)]
fn check_aside<'a>(
    alloc: Global,
    scope: &Scope<'_, 'a>,
    block: &'a [Stmt],
    held: &mut Pairs<'a>,
) -> Result<Vec<Pair<'a>>, CheckFault>
    requires { IsScope scope.now }
    ensures { (before : List PlainPair) → HaveSame (pairs_in held.old) before → WalksAside result before (pairs_in held.new) (visits_in (scope_of scope.now) (plain_block block.now) before) (held_at_end (plain_block block.now) before) }
{
    let changes = match check_block(alloc, scope, block, held) {
        Ok(changes) => changes,
        Err(fault) => return Err(fault),
    };
    held.flip_all(&changes)?;
    Ok(changes)
}
