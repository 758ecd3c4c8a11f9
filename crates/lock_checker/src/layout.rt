// The record cells under each lock cell.
ghost use Rattle.std.specs.Prelude.{◌≡◌, ◌+◌, ◌≤◌, ◌^◌, [], ◌++◌, map, length, IfOk, OnOk};
ghost use Rattle.gp_base.specs.declared.limits.TheConstants.{MOST_CELLS};
ghost use Rattle.task_ast.specs.meaning.Table.{numbers};
ghost use Rattle.lock_checker.specs.inner.Positions.{positions};

use gp_base::{LockNo, RecNo, Seq};
use std::alloc::{AllocError, Global};

// An empty list for each of so many lock cells.
fn empty_lists(alloc: Global, count: u32) -> Result<Vec<Seq<RecNo>>, AllocError>
    ensures { IfOk result (λ lists. lists.items ≡ map (positions 0 []) (numbers 0 count)) }
{
    let mut lists = Vec::new(alloc);
    for _lock in 0..count {
        lists.push(Seq::new(alloc))?;
    }
    Ok(lists)
}

/// For each lock cell the record cells under it, in rising order, from the lock cell over each record cell.
pub fn cells_by_lock(
    alloc: Global,
    over: &[LockNo],
    locks: u32,
) -> Result<Seq<Seq<RecNo>>, AllocError>
    requires { length over.now ≤ MOST_CELLS }
    ensures { IfOk result (λ under. under ≡ map (positions 0 over.now) (numbers 0 locks)) }
{
    let mut under = empty_lists(alloc, locks)?;
    for (cell, lock) in over.iter().enumerate() {
        if let Some(cells) = under.get_mut(lock.0 as usize) {
            cells.push(RecNo(cell as u32))?;
        }
    }
    Ok(Seq::from_vec(under))
}

/// Puts lock cells whose numbers follow one another at the end.
pub fn push_numbers(over: &mut Vec<LockNo>, from: u32, count: u32) -> Result<(), AllocError>
    requires { from + count ≤ 2 ^ 31 }
    ensures { OnOk result (over.new.items ≡ over.old.items ++ numbers from count) }
{
    for k in 0..count {
        over.push(LockNo(from + k))?;
    }
    Ok(())
}
