// A walk on a machine that errs in it.
ghost use Rattle.std.specs.Prelude.{◌≡◌, length, map, All, IsTrue, IfOk, IfErr, OnOk};
ghost use Rattle.std.specs.List.Sorted.{IsStrictlyIncreasing};
ghost use Rattle.task_ast.specs.meaning.Under.{under_lock};
ghost use Rattle.record_store.specs.Lent.{lock_in};
ghost use Rattle.record_store.specs.declared.given.Bundle.{Bundle as BundleThere};
ghost use Rattle.subthread.specs.Tasks.{under_of};
ghost use Rattle.subthread.specs.inner.Hand.{written_to};
ghost use Rattle.subthread.specs.inner.Attempts.{made_of};

use crate::Work;
use crate::attempts::Walk;
use crate::cells::{CellsAtHand, Change};
use crate::flaw::Made;
use crate::ground::{Cursor, Doing};
use crate::run::cells_of;
use gp_base::{RecNo, Seq};
use record_store::Bundle;
use std::alloc::{AllocError, Global};

// Whether these changes are these writes.
fn same_writes(changes: &[Change], writes: &[(RecNo, i64)]) -> bool
    ensures { IsTrue result → map written_to changes.now ≡ writes.now }
{
    if changes.len() != writes.len() {
        return false;
    }
    'comparing: for at in 0..changes.len() {
        let (cell, value) = writes[at];
        if changes[at].cell != cell.0 || changes[at].new != value {
            return false;
        }
    }
    true
}

// Writes these cells. The error is that memory is out, or that they are not at hand or don't rise.
fn write_all(
    alloc: Global,
    cells: &mut CellsAtHand,
    writes: &[(RecNo, i64)],
) -> Result<(), AllocError>
    ensures under { cells.new.under ≡ cells.old.under }
    ensures came { cells.new.came ≡ cells.old.came }
    ensures written { OnOk result (cells.new.written ≡ writes.now) }
{
    'writing: for write in writes {
        if !cells.has(write.0.0) {
            return Err(AllocError);
        }
        cells.write(write.0.0, write.1)?;
    }
    let changes = cells.changes(alloc)?;
    if same_writes(&changes, writes) {
        Ok(())
    } else {
        Err(AllocError)
    }
}

// The walk that comes to this, with these cells at hand. It counts no step.
fn walk_to<'a>(made: Made, cells: CellsAtHand<'a>) -> Walk<'a>
    requires { cells.written ≡ made.writes }
    ensures made { made_of result ≡ made }
    ensures cells { result.doing.cells ≡ cells.entry }
{
    let Made {
        pc,
        ctl,
        regs,
        child,
        lines,
        next,
        foot,
        ..
    } = made;
    Walk {
        cursor: Cursor { pc, ctl },
        doing: Doing {
            regs,
            child,
            cells,
            lines,
            steps: 0,
        },
        next,
        foot,
    }
}

/// What a walk comes to in which the machine errs so; its bundles are handed over. The error is that memory is out, or that
/// no walk comes to that, since it writes cells that are not at hand, or don't rise; it has the bundles as they came.
pub fn erred<'a>(
    alloc: Global,
    work: &'a Work,
    bundles: Seq<Bundle>,
    made: &Made,
) -> Result<Walk<'a>, Seq<Bundle>>
    requires rising { IsStrictlyIncreasing (map lock_in bundles) }
    requires sizes { All (λ (b : BundleThere). length b.cells ≡ length (under_lock (under_of work.now) b.lock)) bundles }
    ensures made { IfOk result (λ walk. made_of walk ≡ made.now) }
    ensures under { IfOk result (λ walk. walk.doing.cells.under ≡ under_of work.now) }
    ensures came { IfOk result (λ walk. walk.doing.cells.came ≡ bundles) }
    ensures back { IfErr result (λ back. back ≡ bundles) }
{
    let Ok(made) = made.copied(alloc) else {
        return Err(bundles);
    };
    let mut cells = cells_of(alloc, work, bundles);
    match write_all(alloc, &mut cells, made.writes.as_slice()) {
        Ok(()) => Ok(walk_to(made, cells)),
        Err(_) => {
            drop(made);
            Err(cells.take_back())
        }
    }
}
