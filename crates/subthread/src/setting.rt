// Cells that are set to values that are known, without a run.
ghost use Rattle.std.specs.Prelude.{◌≡◌, ◌++◌, length, map, All, true, IsTrue, IfOk, OnOk};
ghost use Rattle.std.specs.List.Sorted.{IsStrictlyIncreasing};
ghost use Rattle.std.specs.Ordering.{nat_cmp};
ghost use Rattle.std.specs.FinMap.{is_sorted};
ghost use Rattle.task_ast.specs.meaning.Under.{under_lock, is_under};
ghost use Rattle.record_store.specs.Lent.{lock_in, put_back, new_write};
ghost use Rattle.record_store.specs.declared.given.Bundle.{Bundle as BundleThere};
ghost use Rattle.subthread.specs.Tasks.{under_of};

use crate::Work;
use crate::cells::CellsAtHand;
use crate::run::cells_of;
use gp_base::{RecNo, Seq};
use record_store::Bundle;
use std::alloc::{AllocError, Global};

// Writes cells, in rising order after those that were written before. The error is that memory is out.
fn write_each(cells: &mut CellsAtHand, writes: &[(RecNo, i64)]) -> Result<(), AllocError>
    requires rising { IsTrue (is_sorted nat_cmp (cells.old.written ++ writes.now)) }
    requires under { All (λ w. is_under cells.old.under (map lock_in cells.old.came) w.0 ≡ true) writes.now }
    ensures { OnOk result (cells.new ≡ record cells.old { written = cells.old.written ++ writes.now }) }
{
    for write in writes {
        cells.write(write.0.0, write.1)?;
    }
    Ok(())
}

/// Bundles in which these cells have these values, and the value of each that this overwrote. The cells rise and stand
/// under the locks of the bundles. The error is that memory is out.
pub fn set_cells(
    alloc: Global,
    work: &Work,
    bundles: Seq<Bundle>,
    writes: &[(RecNo, i64)],
) -> Result<(Seq<Bundle>, Seq<(RecNo, i64)>), AllocError>
    requires locks { IsStrictlyIncreasing (map lock_in bundles) }
    requires sizes { All (λ (b : BundleThere). length b.cells ≡ length (under_lock (under_of work.now) b.lock)) bundles }
    requires under { All (λ w. is_under (under_of work.now) (map lock_in bundles) w.0 ≡ true) writes.now }
    requires cells { IsTrue (is_sorted nat_cmp writes.now) }
    ensures came { IfOk result (λ left. put_back (under_of work.now) left.1 left.0 ≡ bundles) }
    ensures written { IfOk result (λ left. map (new_write (under_of work.now) left.0) left.1 ≡ writes.now) }
    ensures rising { IfOk result (λ left. is_sorted nat_cmp left.1 ≡ true) }
    ensures within { IfOk result (λ left. All (λ w. is_under (under_of work.now) (map lock_in bundles) w.0 ≡ true) left.1) }
{
    let mut cells = cells_of(alloc, work, bundles);
    write_each(&mut cells, writes)?;
    match cells.finish(alloc, 0) {
        Ok(left) => Ok(left),
        Err(_) => Err(AllocError),
    }
}
