// Where a record cell stands among bundles.
ghost use Rattle.std.specs.Prelude.{◌≡◌, map, slice_get};
ghost use Rattle.std.specs.List.Sorted.{IsStrictlyIncreasing};
ghost use Rattle.task_ast.specs.meaning.Under.{under_lock};
ghost use Rattle.record_store.specs.Lent.{lock_in};
ghost use Rattle.subthread.specs.Places.{IsPlaceIn};
ghost use Rattle.subthread.specs.inner.Places.{AreSearchable, IsFoundAt};

use gp_base::{LockNo, RecNo, Seq};
use record_store::Bundle;

// The place of a cell among cells that rise.
fn place_in(cells: &[RecNo], cell: u32) -> Option<usize>
    requires { IsStrictlyIncreasing cells.now }
    ensures { IsPlaceIn cells.now cell result }
{
    cells.binary_search_by_key(&cell, |c| c.0).ok()
}

// The bundle of a lock among bundles whose locks rise.
fn bundle_of<'a>(bundles: &'a [Bundle], lock: LockNo) -> Option<usize>
    requires { IsStrictlyIncreasing (map lock_in bundles.now) }
    ensures { IsPlaceIn (map lock_in bundles.now) lock result }
{
    bundles
        .binary_search_by_key(&lock.0, |bundle| bundle.lock.0)
        .ok()
}

// The record cells under a lock cell.
fn under_lock<'a>(under: &'a [Seq<RecNo>], lock: LockNo) -> &'a [RecNo]
    ensures { result.now ≡ under_lock under.now lock }
{
    match under.get(lock.0 as usize) {
        Some(cells) => cells.as_slice(),
        None => &[],
    }
}

// The lock cell over a record cell.
fn lock_over(over: &[LockNo], cell: u32) -> Option<LockNo>
    ensures { result ≡ slice_get over.now cell }
{
    over.get(cell as usize).copied()
}

/// The bundle that has a record cell, and the place of the cell in it, where it is at hand.
pub fn find_cell(
    under: &[Seq<RecNo>],
    over: &[LockNo],
    bundles: &[Bundle],
    cell: u32,
) -> Option<(usize, usize)>
    requires { AreSearchable under.now over.now bundles.now }
    ensures { IsFoundAt under.now bundles.now cell result }
{
    let lock = lock_over(over, cell)?;
    let at = bundle_of(bundles, lock)?;
    let place = place_in(under_lock(under, lock), cell)?;
    Some((at, place))
}
