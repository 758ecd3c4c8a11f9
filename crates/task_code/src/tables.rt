// What a program declares, by name.

ghost use Rattle.std.specs.Prelude.{◌≡◌, map, position, IfOk};
ghost use Rattle.lock_checker.specs.Tables.{found};
ghost use Rattle.task_ast.specs.meaning.Names.{is_name, barriers_of, feeds_of};
ghost use Rattle.task_ast.specs.meaning.Tree as plain;
ghost use Rattle.task_ast.specs.View.{plain_task};
ghost use Rattle.task_code.specs.inner.Tables.{targets};

use gp_base::Name;
use lock_checker::SymbolTable;
use std::alloc::{AllocError, Global};
use task_ast::{Head, TaskText};

/// The names of the barriers, in declared order.
pub fn barrier_names<'a>(alloc: Global, heads: &'a [Head]) -> Result<Vec<&'a Name>, AllocError>
    ensures { IfOk result (λ names. targets names.items ≡ map (λ n. n.0) (barriers_of heads.now)) }
{
    let mut names = Vec::new(alloc);
    for head in heads {
        if let Head::BarrierHead { name, .. } = head {
            names.push(name)?;
        }
    }
    Ok(names)
}

/// The names of the feeds, in declared order.
pub fn feed_names<'a>(alloc: Global, heads: &'a [Head]) -> Result<Vec<&'a Name>, AllocError>
    ensures { IfOk result (λ names. targets names.items ≡ feeds_of heads.now) }
{
    let mut names = Vec::new(alloc);
    for head in heads {
        if let Head::FeedHead { name, .. } = head {
            names.push(name)?;
        }
    }
    Ok(names)
}

/// The names of the tasks, in text order.
pub fn task_names<'a>(alloc: Global, tasks: &'a [TaskText]) -> Result<Vec<&'a Name>, AllocError>
    ensures { IfOk result (λ names. targets names.items ≡ map (λ t. t.name) (map plain_task tasks.now)) }
{
    let mut names = Vec::new(alloc);
    for task in tasks {
        names.push(&task.name)?;
    }
    Ok(names)
}

/// The place of each of these names, of one that stands there twice the first.
#[tactic(auto, using(lock_checker::proofs::TableLemmas::put_steps))]
pub fn places(alloc: Global, names: &[&Name]) -> Result<SymbolTable<usize>, AllocError>
    ensures { IfOk result (λ t. (x : plain.Name) → found t x ≡ position (is_name x) (targets names.now)) }
{
    let mut table = SymbolTable::new(alloc);
    for (place, name) in names.iter().enumerate() {
        table.put(name, place)?;
    }
    Ok(table)
}
