// Copies of the data at cuts, to which a run that rolls back goes back.

ghost use Rattle.std.specs.Prelude.{◌≡◌, ◌↔◌, ◌<◌, ◌≤◌, false, [], All, Contains, length, map, IsTrue, IfOk, OnOk, IfSome, IfNone};
ghost use Rattle.std.specs.List.Sorted.{IsStrictlyIncreasing};
ghost use Rattle.record_store.specs.Stored.{IsAllHome};
ghost use Rattle.whole_run.specs.Gives.{MayPostNow};
ghost use Rattle.whole_run.specs.inner.Kept.{batch_in, view_of, Kept};
ghost use Rattle.whole_run.specs.inner.Backed.{open_cut, HasCut, IsOpened};
ghost use Rattle.whole_run.specs.inner.Backing.{IsAdvanced, SlotsOnly, IsRestored, DropsAfter, DropsBefore};

use crate::Recovery;
use crate::parts::{Parts, Plan};
use gp_base::Pos;
use record_store::Store;
use reorder_list::Rol;
use std::alloc::{AllocError, Global};
use std::collections::VecDeque;
use task_ast::SyncOp;

/// A copy of the data at a cut: what all positions before it left, and no other.
#[derive(Drop)]
pub struct Checkpoint {
    pub cut: u32,
    pub store: Store,
}

/// What a run that rolls back keeps beside its entries: how many positions are applied before the first that is not,
/// and the checkpoints, at rising cuts. A selective run has none.
#[derive(Drop)]
pub struct Backup {
    pub whole: u32,
    pub checkpoints: VecDeque<Checkpoint>,
}

impl Backup {
    /// Nothing was applied. Takes no memory.
    pub fn new(alloc: Global) -> Backup
        ensures whole { result.whole ≡ 0 }
        ensures none { result.checkpoints.items ≡ [] }
    {
        Backup {
            whole: 0,
            checkpoints: VecDeque::new(alloc),
        }
    }
}

/// The cut of the block of a position that has an entry, where none of that block has retired. No cut lies between: a
/// settle is issued where all before it have retired, so that only the oldest entry may be one.
pub fn open_cut(every: u32, rol: &Rol, position: Pos) -> Option<u32>
    requires { 1 ≤ every }
    ensures { result ≡ open_cut every rol.now.entries position }
{
    let oldest = rol.front()?;
    let multiple = position.0 - position.0 % every;
    if oldest.pos.0 <= multiple {
        Some(multiple)
    } else if matches!(oldest.begins.sync, SyncOp::Settle { .. }) {
        Some(oldest.pos.0)
    } else {
        None
    }
}

// Whether there is a checkpoint at a cut.
fn has_checkpoint(backup: &Backup, cut: u32) -> bool
    ensures { IsTrue result ↔ HasCut backup.now.checkpoints.items cut }
{
    backup
        .checkpoints
        .iter()
        .any(|checkpoint| checkpoint.cut == cut)
}

/// Copies the data at the cut of a position that is the first of its block to be posted: nothing is out then, and all
/// before the cut is applied, and nothing else. The error is that memory is out.
pub fn open_block(
    alloc: Global,
    plan: &Plan,
    parts: &mut Parts,
    position: Pos,
) -> Result<(), AllocError>
    requires kept { Kept (batch_in plan.now) parts.old }
    requires closed { parts.old.ring.cleared ≡ false }
    requires may { MayPostNow (view_of (batch_in plan.now) parts.old) position }
    ensures kept { Kept (batch_in plan.now) parts.new }
    ensures same { parts.new ≡ record parts.old { backup = parts.new.backup } }
    ensures opened { OnOk result (IsOpened (batch_in plan.now).recovery parts.old.rol.entries position parts.new.backup) }
{
    let Recovery::Rollback(every) = plan.recovery else {
        return Ok(());
    };
    let Some(cut) = open_cut(every, &parts.rol, position) else {
        return Ok(());
    };
    if has_checkpoint(&parts.backup, cut) {
        return Ok(());
    }
    parts.backup.checkpoints.reserve(1)?;
    let store = parts.store.copy(alloc)?;
    parts
        .backup
        .checkpoints
        .push_back_reserved(Checkpoint { cut, store });
    Ok(())
}

/// Counts the positions that are applied before the first that is not, from those that were counted before.
pub fn advance(backup: &mut Backup, rol: &Rol)
    requires { All (λ e. e.pos < 4294967295) rol.now.entries }
    ensures { IsAdvanced rol.now.entries backup.old backup.new }
{
    'advancing: while let Some(entry) = rol.get(Pos(backup.whole)) {
        if !entry.state.is_applied() {
            return;
        }
        backup.whole += 1;
    }
}

// Gives a store empty slots for the registers of threads, up to so many. The error is that memory is out.
fn pad(alloc: Global, store: &mut Store, threads: usize) -> Result<(), AllocError>
    ensures slots { SlotsOnly store.old store.new }
    ensures many { OnOk result (threads ≤ length store.new.threads) }
{
    for _ in store.len()..threads {
        store.reserve_thread(alloc, 0)?;
    }
    Ok(())
}

// The checkpoint at a cut, where there is one.
fn checkpoint_at(backup: &Backup, cut: u32) -> Option<&Checkpoint>
    ensures found { IfSome result (λ checkpoint. Contains backup.now.checkpoints.items checkpoint.now × (checkpoint.now.cut ≡ cut)) }
    ensures none { IfNone result (¬ HasCut backup.now.checkpoints.items cut) }
{
    backup
        .checkpoints
        .iter()
        .find(|checkpoint| checkpoint.cut == cut)
}

/// What the store goes back to at a cut, with slots for the registers of so many threads: a copy of the checkpoint
/// there. There is none where nothing from the cut on was posted, and then the store is as it was at the cut. The error
/// is that memory is out.
pub fn restored(
    alloc: Global,
    backup: &Backup,
    cut: u32,
    threads: usize,
) -> Result<Option<Store>, AllocError>
    requires { All (λ checkpoint. IsAllHome checkpoint.store) backup.now.checkpoints.items }
    ensures { IfOk result (IsRestored backup.now.checkpoints.items cut threads) }
{
    let Some(checkpoint) = checkpoint_at(backup, cut) else {
        return Ok(None);
    };
    let mut store = checkpoint.store.copy(alloc)?;
    pad(alloc, &mut store, threads)?;
    Ok(Some(store))
}

/// Gives up the checkpoints at cuts after this one. Takes no memory.
pub fn drop_after(backup: &mut Backup, cut: u32)
    requires { IsStrictlyIncreasing (map (λ checkpoint. checkpoint.cut) backup.old.checkpoints.items) }
    ensures { DropsAfter cut backup.old backup.new }
{
    'dropping: while let Some(last) = backup.checkpoints.back() {
        if last.cut <= cut {
            return;
        }
        let _ = backup.checkpoints.pop_back();
    }
}

/// Gives up the checkpoints at cuts before a position, to which no rollback goes back once that has retired. Takes no
/// memory.
pub fn drop_before(backup: &mut Backup, position: u32)
    ensures { DropsBefore position backup.old backup.new }
{
    'dropping: while let Some(first) = backup.checkpoints.front() {
        if position <= first.cut {
            return;
        }
        let _ = backup.checkpoints.pop_front();
    }
}
