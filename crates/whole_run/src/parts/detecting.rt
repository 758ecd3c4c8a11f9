// Making the restarts that faults ask for.

ghost use Rattle.std.specs.Prelude.{◌≡◌, ◌↔◌, ℕ, ◌+◌, ◌^◌, ◌<◌, ◌≤◌, [], ◌∷◌, ◌++◌, All, Some, is_some, unwrap_or, false, IsTrue, IfOk, OnErr, OnOk, length};
ghost use Rattle.std.specs.Option.{IsSome};
ghost use Rattle.gp_base.specs.declared.journal.Event.TheVariants as event;
ghost use Rattle.reorder_list.specs.Entries.{entry_at};
ghost use Rattle.whole_run.specs.declared.recovery.Recovery.TheVariants as recovery;
ghost use Rattle.whole_run.specs.Gives.{DetectGives, IsBack, IsScouted, struck_now};
ghost use Rattle.whole_run.specs.inner.Kept.{batch_in, view_of, Kept};
ghost use Rattle.whole_run.specs.inner.Detected.{HasRooms, DidRestart, attempt_in, RaisesFrom};

use crate::Recovery;
use crate::parts::backing::{drop_after, open_cut, restored};
use crate::parts::{Parts, Plan};
use gp_base::{Event, Pos, Restart, Room};
use record_store::Store;
use reorder_list::Rol;
use restart::restart;
use std::alloc::{AllocError, Global};

/// Whether a restart is due, as far as the end is known.
pub fn due(plan: &Plan, parts: &Parts) -> bool
    requires kept { Kept (batch_in plan.now) parts.now }
    ensures { result ≡ is_some (struck_now (view_of (batch_in plan.now) parts.now)) }
{
    let known = parts.ended.is_some();
    plan.faults
        .struck(&parts.rol, parts.issued, known)
        .is_some()
}

/// Whether all that a restart waits for is back: each lock is at home, or, where all is rolled back, nothing is out.
pub fn all_home(plan: &Plan, parts: &Parts) -> bool
    requires kept { Kept (batch_in plan.now) parts.now }
    ensures { IsTrue result ↔ IsBack (view_of (batch_in plan.now) parts.now) }
{
    match plan.recovery {
        Recovery::Selective => !parts.rol.lent(),
        Recovery::Rollback(_) => !parts.rol.any_out(),
    }
}

/// Whether each position that has not retired was run at some attempt, so that what it reads and writes is known, or
/// that need not be known, since all is rolled back.
pub fn scouted(plan: &Plan, parts: &Parts) -> bool
    requires kept { Kept (batch_in plan.now) parts.now }
    ensures { IsTrue result ↔ IsScouted (view_of (batch_in plan.now) parts.now) }
{
    match plan.recovery {
        Recovery::Selective => parts.rol.all_known(),
        Recovery::Rollback(_) => true,
    }
}

// Takes the memory that a restart of so many positions needs: for its list, and for it in the journal.
fn make_room(
    alloc: Global,
    events: &mut Room<Event>,
    restarts: &mut Room<Restart>,
    most: usize,
) -> Result<Room<Pos>, AllocError>
    ensures events { events.new.items ≡ events.old.items }
    ensures restarts { restarts.new.items ≡ restarts.old.items }
    ensures empty { IfOk result (λ redo. redo.items ≡ []) }
    ensures rooms { IfOk result (HasRooms most events.new restarts.new) }
{
    let mut redo = Room::new(alloc);
    redo.reserve(most)?;
    events.reserve(1)?;
    restarts.reserve(1)?;
    Ok(redo)
}

// The present attempt of a position, or 0 where it has no entry.
fn attempt_of(rol: &Rol, p: Pos) -> u32
    ensures { result ≡ attempt_in (entry_at rol.now.entries p) }
{
    match rol.get(p) {
        Some(entry) => entry.attempt,
        None => 0,
    }
}

// Notes a restart, with its event.
fn note(events: &mut Room<Event>, restarts: &mut Room<Restart>, made: Restart)
    requires event { 0 < events.old.spare }
    requires restart { 0 < restarts.old.spare }
    requires few { length restarts.old.items < 2 ^ 32 }
    ensures events { events.new.items ≡ events.old.items ++ event.Restart (length restarts.old.items) ∷ [] }
    ensures restarts { restarts.new.items ≡ restarts.old.items ++ made ∷ [] }
{
    events.push(Event::Restart(restarts.len() as u32));
    restarts.push(made);
}

// Redoes the position that is struck with its dependents, and notes it.
fn redo_from(alloc: Global, plan: &Plan, parts: &mut Parts, struck: Pos, redo: Room<Pos>)
    requires selective { plan.now.recovery ≡ recovery.Selective }
    requires kept { Kept (batch_in plan.now) parts.old }
    requires closed { parts.old.ring.cleared ≡ false }
    requires is_struck { struck_now (view_of (batch_in plan.now) parts.old) ≡ Some struck }
    requires scouted { IsScouted (view_of (batch_in plan.now) parts.old) }
    requires home { IsBack (view_of (batch_in plan.now) parts.old) }
    requires empty { redo.items ≡ [] }
    requires rooms { HasRooms (length parts.old.rol.entries) parts.old.events parts.old.restarts redo }
    ensures kept { Kept (batch_in plan.now) parts.new }
    ensures closed { parts.new.ring.cleared ≡ false }
    ensures did { DidRestart (view_of (batch_in plan.now) parts.old) (view_of (batch_in plan.now) parts.new) }
{
    let mut redo = redo;
    let front = Pos(parts.issued);
    let attempt = attempt_of(&parts.rol, struck);
    restart(
        alloc,
        &mut parts.rol,
        &mut parts.store,
        struck,
        front,
        &mut redo,
    );
    let made = Restart {
        front,
        struck,
        attempt,
        redo: redo.into_seq(),
    };
    note(&mut parts.events, &mut parts.restarts, made);
}

// Begins the next attempt of each position from a cut on, and lists these positions.
fn raise_from(alloc: Global, rol: &mut Rol, cut: u32, front: Pos, redo: &mut Room<Pos>)
    requires issued { cut ≤ front }
    requires attempts { All (λ e. e.attempt < 4294967295) rol.old.entries }
    requires there { (q : ℕ) → cut ≤ q → q < front → IsSome (entry_at rol.old.entries q) }
    requires empty { redo.old.items ≡ [] }
    requires room { front ≤ cut + redo.old.spare }
    ensures { RaisesFrom cut front rol.old.entries rol.new.entries redo.new.items }
{
    for position in cut..front.0 {
        let _ = rol.raise(alloc, Pos(position), front);
        redo.push(Pos(position));
    }
}

// Puts a copy of the data in the place of the data, where there is one.
fn put_back(store: &mut Store, copy: Option<Store>)
    ensures { store.new ≡ unwrap_or copy store.old }
{
    if let Some(data) = copy {
        *store = data;
    }
}

// Rolls all from the cut of the position that is struck on back, and notes it. The error is that memory is out, and
// changes nothing.
fn roll_back(
    alloc: Global,
    every: u32,
    plan: &Plan,
    parts: &mut Parts,
    struck: Pos,
    redo: Room<Pos>,
) -> Result<(), AllocError>
    requires rolls { plan.now.recovery ≡ recovery.Rollback every }
    requires kept { Kept (batch_in plan.now) parts.old }
    requires closed { parts.old.ring.cleared ≡ false }
    requires is_struck { struck_now (view_of (batch_in plan.now) parts.old) ≡ Some struck }
    requires home { IsBack (view_of (batch_in plan.now) parts.old) }
    requires empty { redo.items ≡ [] }
    requires rooms { HasRooms (length parts.old.rol.entries) parts.old.events parts.old.restarts redo }
    ensures kept { Kept (batch_in plan.now) parts.new }
    ensures closed { parts.new.ring.cleared ≡ false }
    ensures did { OnOk result (DidRestart (view_of (batch_in plan.now) parts.old) (view_of (batch_in plan.now) parts.new)) }
    ensures err { OnErr result (view_of (batch_in plan.now) parts.new ≡ view_of (batch_in plan.now) parts.old) }
{
    let mut redo = redo;
    let front = Pos(parts.issued);
    let Some(cut) = open_cut(every, &parts.rol, struck) else {
        unreachable!();
    };
    let attempt = attempt_of(&parts.rol, struck);
    let copy = restored(alloc, &parts.backup, cut, parts.store.len())?;
    put_back(&mut parts.store, copy);
    drop_after(&mut parts.backup, cut);
    parts.backup.whole = parts.backup.whole.min(cut);
    raise_from(alloc, &mut parts.rol, cut, front, &mut redo);
    let made = Restart {
        front,
        struck,
        attempt,
        redo: redo.into_seq(),
    };
    note(&mut parts.events, &mut parts.restarts, made);
    Ok(())
}

/// Makes one restart, before which what each position reads and writes has to be known, where that matters, and all to
/// be back that it waits for, and answers `true`, or answers `false` where none is due, as far as the end is known. The
/// error is that memory is out, and changes nothing.
pub fn detect(alloc: Global, plan: &Plan, parts: &mut Parts) -> Result<bool, AllocError>
    requires kept { Kept (batch_in plan.now) parts.old }
    requires closed { parts.old.ring.cleared ≡ false }
    requires scouted { IsSome (struck_now (view_of (batch_in plan.now) parts.old)) → IsScouted (view_of (batch_in plan.now) parts.old) }
    requires home { IsSome (struck_now (view_of (batch_in plan.now) parts.old)) → IsBack (view_of (batch_in plan.now) parts.old) }
    ensures kept { Kept (batch_in plan.now) parts.new }
    ensures closed { parts.new.ring.cleared ≡ false }
    ensures gives { IfOk result (DetectGives (view_of (batch_in plan.now) parts.old) (view_of (batch_in plan.now) parts.new)) }
    ensures err { OnErr result (view_of (batch_in plan.now) parts.new ≡ view_of (batch_in plan.now) parts.old) }
{
    let known = parts.ended.is_some();
    let Some(p) = plan.faults.struck(&parts.rol, parts.issued, known) else {
        return Ok(false);
    };
    let most = parts.rol.len();
    let redo = make_room(alloc, &mut parts.events, &mut parts.restarts, most)?;
    match plan.recovery {
        Recovery::Selective => redo_from(alloc, plan, parts, Pos(p), redo),
        Recovery::Rollback(every) => roll_back(alloc, every, plan, parts, Pos(p), redo)?,
    }
    Ok(true)
}
