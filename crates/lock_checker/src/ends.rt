// The ends of statements with blocks.
ghost use Rattle.std.specs.Prelude.{◌≡◌, ℕ, None, not, List, [], ◌∷◌, ◌++◌};
ghost use Rattle.task_ast.specs.meaning.Held.{Pair as PlainPair, same_pairs};
ghost use Rattle.task_ast.specs.meaning.Visit.{Visit, visit, fails_if, first_fault};
ghost use Rattle.task_ast.specs.declared.check_kind.CheckKind.TheVariants.{BranchesDiffer};
ghost use Rattle.lock_checker.specs.inner.Pairs.{pairs_of, Leads, Moves};
ghost use Rattle.lock_checker.specs.inner.Faults.{Walks, WalksAside};

use crate::fault::CheckFault;
use crate::held::lead_alike;
use crate::pair::Pair;
use std::alloc::Global;
use task_ast::CheckKind;

/// The changes of a statement that changes nothing.
pub fn no_changes<'a>(alloc: Global) -> Vec<Pair<'a>>
    ensures { (old : List PlainPair) → Moves old (pairs_of result.items) old old }
{
    Vec::new(alloc)
}

/// The end of a loop, whose body has to end with the pairs that it begins with.
pub fn end_loop<'a>(
    alloc: Global,
    line: u32,
    body: Result<Vec<Pair<'a>>, CheckFault>,
) -> Result<Vec<Pair<'a>>, CheckFault>
    ensures { (old new : List PlainPair) (visits : List Visit) (end : List PlainPair) → WalksAside body.entry old new visits end → Walks result old new (visits ++ visit line (fails_if (not (same_pairs end old)) BranchesDiffer) ∷ []) old }
{
    let changes = match body {
        Ok(changes) => changes,
        Err(fault) => return Err(fault),
    };
    if lead_alike(alloc, &changes, &[])? {
        Ok(no_changes(alloc))
    } else {
        Err(CheckFault::Bad {
            kind: CheckKind::BranchesDiffer,
            line,
        })
    }
}

/// The end of two branches, which have to end with the same pairs, after the visits of the first.
pub fn end_branches<'a>(
    alloc: Global,
    line: u32,
    first: &[Pair<'a>],
    second: Result<Vec<Pair<'a>>, CheckFault>,
) -> Result<Vec<Pair<'a>>, CheckFault>
    ensures { (old new : List PlainPair) (earlier visits : List Visit) (a b : List PlainPair) → first_fault earlier ≡ None → Leads old (pairs_of first.now) a → Walks second.entry old new visits b → Walks result old new ((earlier ++ visits) ++ visit line (fails_if (not (same_pairs a b)) BranchesDiffer) ∷ []) a }
{
    let changes = match second {
        Ok(changes) => changes,
        Err(fault) => return Err(fault),
    };
    if lead_alike(alloc, first, &changes)? {
        Ok(changes)
    } else {
        Err(CheckFault::Bad {
            kind: CheckKind::BranchesDiffer,
            line,
        })
    }
}

/// The end of a `when`, after the visits of its first block.
pub fn end_choice<'a>(
    second: Result<Vec<Pair<'a>>, CheckFault>,
) -> Result<Vec<Pair<'a>>, CheckFault>
    ensures { (line : ℕ) (old new : List PlainPair) (earlier visits : List Visit) (end : List PlainPair) → first_fault earlier ≡ None → WalksAside second.entry old new visits end → Walks result old new ((earlier ++ visits) ++ visit line [] ∷ []) old }
{
    let mut changes = match second {
        Ok(changes) => changes,
        Err(fault) => return Err(fault),
    };
    changes.clear();
    Ok(changes)
}
