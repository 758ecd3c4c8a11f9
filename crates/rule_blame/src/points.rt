// The walk over the statements of a task, with the locks that are held.
ghost use Rattle.std.specs.Prelude.{◌≡◌, ℕ, IfOk, IfSome, IsTrue};
ghost use Rattle.task_ast.specs.meaning.Held.{held_after, held_at_end};
ghost use Rattle.task_ast.specs.meaning.Tree as plain;
ghost use Rattle.task_ast.specs.View.{plain_stmt, plain_block};
ghost use Rattle.rule_blame.specs.Points.{points_of, points_in};
ghost use Rattle.rule_blame.specs.Blames.{IsApart};
ghost use Rattle.rule_blame.specs.Views.{scope_of, pair_of, pairs_of};
ghost use Rattle.rule_blame.specs.Told.{Walks};
ghost use Rattle.rule_blame.specs.Walked.{HasWalked};

use crate::blames::{Blame, Numbered};
use crate::held::{Taken, missing, without};
use crate::scope::Scope;
use crate::statements::statement_blame;
use std::alloc::{AllocError, Global};
use task_ast::{CheckKind, Stmt, What};

/// What is looked for: a rule, and the line.
#[derive(Clone, Copy)]
pub struct Walk<'a> {
    pub scope: Scope<'a>,
    pub kind: CheckKind,
    pub line: u32,
}

/// How many statements a walk has come to, in the order of the text, and the one that it told of.
#[derive(Clone, Copy)]
pub struct Passed<'a> {
    count: u32,
    told: Option<Numbered<'a>>,
}

impl<'a> Passed<'a> {
    /// No statement was come to.
    pub fn new() -> Passed<'a> {
        Passed {
            count: 0,
            told: None,
        }
    }

    /// The statement that was told of.
    pub fn told(&self) -> Option<Numbered<'a>> {
        self.told
    }

    // The next statement.
    fn next(&mut self, what: &'a What) -> Numbered<'a> {
        let number = self.count;
        self.count = number.saturating_add(1);
        Numbered { number, what }
    }

    // This statement is told of, if none in its blocks is.
    fn tell(&mut self, statement: Numbered<'a>) {
        if self.told.is_none() {
            self.told = Some(statement);
        }
    }
}

// A pair that is held in the one place and not in the other, and whether that one is the first.
fn apart<'a>(one: &[Taken<'a>], other: &[Taken<'a>]) -> Option<(Taken<'a>, bool)>
    ensures { IfSome result (λ found. IsApart (pairs_of one.now) (pairs_of other.now) (pair_of found.0) found.1) }
{
    if let Some(taken) = missing(one, other) {
        return Some((taken, true));
    }
    if let Some(taken) = missing(other, one) {
        return Some((taken, false));
    }
    None
}

impl<'a> Walk<'a> {
    // Whether the ends of the blocks of a statement in the line are asked for.
    fn asks_ends(self, line: u32) -> bool
        ensures { IsTrue result → line ≡ self.entry.line }
    {
        self.line == line && self.kind == CheckKind::BranchesDiffer
    }
}

/// What a walk over a block told, and the pairs that are held after it, or where it told.
#[derive(Drop)]
pub struct Walked<'a> {
    pub found: Option<Blame<'a>>,
    pub held: Vec<Taken<'a>>,
}

// What is told of a `while` in this line, whose block was walked over.
fn end_loop<'a>(
    walk: Walk<'a>,
    line: u32,
    inside: Walked<'a>,
    held: &mut Vec<Taken<'a>>,
) -> Option<Blame<'a>>
    ensures { (e : plain.Expr) (body : plain.Block) → HasWalked (scope_of walk.entry.scope) walk.entry.line body (pairs_of held.old.items) inside.entry
        → Walks (scope_of walk.entry.scope) walk.entry.line (points_of (plain.At line (plain.While e body)) (pairs_of held.old.items))
        (pairs_of held.new.items) (pairs_of held.old.items) result }
{
    if let Some(told) = inside.found {
        *held = inside.held;
        return Some(told);
    }
    if !walk.asks_ends(line) {
        return None;
    }
    match apart(held, &inside.held) {
        Some((taken, before)) => Some(Blame::OneTurn { taken, before }),
        None => None,
    }
}

// What is told of an `if` in this line, whose blocks were walked over.
fn end_branches<'a>(
    walk: Walk<'a>,
    line: u32,
    first: Walked<'a>,
    second: Walked<'a>,
    held: &mut Vec<Taken<'a>>,
) -> Option<Blame<'a>>
    ensures { (e : plain.Expr) (a b : plain.Block) → HasWalked (scope_of walk.entry.scope) walk.entry.line a (pairs_of held.old.items) first.entry
        → HasWalked (scope_of walk.entry.scope) walk.entry.line b (pairs_of held.old.items) second.entry
        → Walks (scope_of walk.entry.scope) walk.entry.line (points_of (plain.At line (plain.If e a b)) (pairs_of held.old.items))
        (pairs_of held.new.items) (held_at_end a (pairs_of held.old.items)) result }
{
    *held = first.held;
    if let Some(told) = first.found {
        return Some(told);
    }
    if let Some(told) = second.found {
        *held = second.held;
        return Some(told);
    }
    if !walk.asks_ends(line) {
        return None;
    }
    match apart(held, &second.held) {
        Some((taken, first)) => Some(Blame::OneBranch { taken, first }),
        None => None,
    }
}

// What is told of a `when`, whose blocks were walked over.
fn end_choice<'a>(
    walk: Walk<'a>,
    first: Walked<'a>,
    second: Walked<'a>,
    held: &mut Vec<Taken<'a>>,
) -> Option<Blame<'a>>
    ensures { (line : ℕ) (e : plain.Expr) (a b : plain.Block)
        → HasWalked (scope_of walk.entry.scope) walk.entry.line a (pairs_of held.old.items) first.entry
        → HasWalked (scope_of walk.entry.scope) walk.entry.line b (pairs_of held.old.items) second.entry
        → Walks (scope_of walk.entry.scope) walk.entry.line (points_of (plain.At line (plain.When e a b)) (pairs_of held.old.items))
        (pairs_of held.new.items) (pairs_of held.old.items) result }
{
    if let Some(told) = first.found {
        *held = first.held;
        return Some(told);
    }
    if let Some(told) = second.found {
        *held = second.held;
        return Some(told);
    }
    None
}

/// Walks over the statements of a block, and tells what the rule is about in the first that stands in the line and breaks
/// it. Else the pairs that are held after the block are left.
#[cycle(walk)]
pub fn walk_block<'a>(
    alloc: Global,
    walk: Walk<'a>,
    block: &'a [Stmt],
    held: &mut Vec<Taken<'a>>,
    passed: &mut Passed<'a>,
) -> Result<Option<Blame<'a>>, AllocError>
    ensures { IfOk result (Walks (scope_of walk.entry.scope) walk.entry.line (points_in (plain_block block.now) (pairs_of held.old.items))
        (pairs_of held.new.items) (held_at_end (plain_block block.now) (pairs_of held.old.items))) }
{
    for s in block {
        if let Some(told) = walk_statement(alloc, walk, s, held, passed)? {
            return Ok(Some(told));
        }
    }
    Ok(None)
}

// The same from pairs that stay as they are.
#[cycle(walk)]
fn walk_aside<'a>(
    alloc: Global,
    walk: Walk<'a>,
    block: &'a [Stmt],
    held: &[Taken<'a>],
    passed: &mut Passed<'a>,
) -> Result<Walked<'a>, AllocError>
    ensures { IfOk result (HasWalked (scope_of walk.entry.scope) walk.entry.line (plain_block block.now) (pairs_of held.now)) }
{
    let mut inside = Vec::from_slice(alloc, held)?;
    let found = walk_block(alloc, walk, block, &mut inside, passed)?;
    Ok(Walked {
        found,
        held: inside,
    })
}

// The same for a statement.
#[cycle(walk)]
fn walk_statement<'a>(
    alloc: Global,
    walk: Walk<'a>,
    s: &'a Stmt,
    held: &mut Vec<Taken<'a>>,
    passed: &mut Passed<'a>,
) -> Result<Option<Blame<'a>>, AllocError>
    ensures { IfOk result (Walks (scope_of walk.entry.scope) walk.entry.line (points_of (plain_stmt s.now) (pairs_of held.old.items))
        (pairs_of held.new.items) (held_after (plain_stmt s.now) (pairs_of held.old.items))) }
{
    let statement = passed.next(&s.what);
    if s.line == walk.line {
        if let Some(told) = statement_blame(alloc, walk.scope, walk.kind, &s.what, held)? {
            passed.tell(statement);
            return Ok(Some(told));
        }
    }
    let found = walk_inside(alloc, walk, s, held, passed)?;
    if found.is_some() {
        passed.tell(statement);
    }
    Ok(found)
}

// The same for the blocks of a statement and its end.
#[cycle(walk)]
#[tactic(auto, using(task_ast::proofs::Views::view))]
fn walk_inside<'a>(
    alloc: Global,
    walk: Walk<'a>,
    s: &'a Stmt,
    held: &mut Vec<Taken<'a>>,
    passed: &mut Passed<'a>,
) -> Result<Option<Blame<'a>>, AllocError>
    ensures { IfOk result (Walks (scope_of walk.entry.scope) walk.entry.line (points_of (plain_stmt s.now) (pairs_of held.old.items))
        (pairs_of held.new.items) (held_after (plain_stmt s.now) (pairs_of held.old.items))) }
{
    match &s.what {
        What::While(_, body) => {
            let inside = walk_aside(alloc, walk, body.as_slice(), held, passed)?;
            Ok(end_loop(walk, s.line, inside, held))
        }
        What::If(_, first, second) => {
            let first = walk_aside(alloc, walk, first.as_slice(), held, passed)?;
            let second = walk_aside(alloc, walk, second.as_slice(), held, passed)?;
            Ok(end_branches(walk, s.line, first, second, held))
        }
        What::When(_, first, second) => {
            let first = walk_aside(alloc, walk, first.as_slice(), held, passed)?;
            let second = walk_aside(alloc, walk, second.as_slice(), held, passed)?;
            Ok(end_choice(walk, first, second, held))
        }
        What::Lock(array, index) => {
            held.push(Taken {
                array,
                index,
                line: s.line,
            })?;
            Ok(None)
        }
        What::Unlock(array, index) => {
            *held = without(alloc, held, array, index)?;
            Ok(None)
        }
        _ => Ok(None),
    }
}
