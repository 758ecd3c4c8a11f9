// Taking the run of a task.

ghost use Rattle.std.specs.Prelude.{◌≡◌, ◌<◌, true, false, All, length, map, IfOk, OnOk, OnErr};
ghost use Rattle.std.specs.Option.{IsSomeAnd};
ghost use Rattle.gp_base.specs.declared.journal.Event.TheVariants as event;
ghost use Rattle.record_store.specs.Lent.{lock_in, whole_effect, MayComeHome};
ghost use Rattle.record_store.specs.Stored.{Fits};
ghost use Rattle.reorder_list.specs.Entries.{entry_at, with_change_at, known_entry};
ghost use Rattle.reorder_list.specs.declared.entry.State.TheVariants as state;
ghost use Rattle.subthread.specs.Tasks.{task_of, effect_of, IsRun};
ghost use Rattle.crew.specs.Noted.{NotesNothing};
ghost use Rattle.whole_run.specs.Gives.{Did};
ghost use Rattle.whole_run.specs.Notes.{NotesTaken};
ghost use Rattle.whole_run.specs.Takes.{TaskStands};
ghost use Rattle.whole_run.specs.inner.Kept.{batch_in, view_of, Kept};
ghost use Rattle.whole_run.specs.inner.Taken.{awaits, learning_from, placing_from, has_attempt, IsAppliedWhere};

use crate::Recovery;
use crate::parts::backing::advance;
use crate::parts::{Backup, Parts, Place, Plan};
use crew::Notes;
use gp_base::{Event, Footprint, Pos, RecNo, Seq, ThreadNo};
use record_store::{Bundle, Effect, Store};
use reorder_list::Rol;
use std::alloc::AllocError;
use subthread::{Done, Task, Work};
use task_ast::Next;
use token_order::Ring;

/// Whether this attempt of a position is its present one. A position that has retired has none.
fn is_present(rol: &Rol, pos: Pos, attempt: u32) -> bool
    ensures { result ≡ has_attempt attempt (entry_at rol.now.entries pos) }
{
    match rol.get(pos) {
        Some(entry) => attempt == entry.attempt,
        None => false,
    }
}

/// Whether a thread's next synchronisation is awaited from this position.
fn is_awaited(ring: &Ring, thread: ThreadNo, pos: Pos) -> bool
    ensures { result ≡ awaits ring.now.table thread pos }
{
    match ring.awaits(thread) {
        Some(last) => last.0 == pos.0,
        None => false,
    }
}

/// Learns a thread's next synchronisation and place, where these are awaited from this position.
fn learn(
    ring: &mut Ring,
    places: &mut [Place],
    thread: ThreadNo,
    pos: Pos,
    next: Next,
    place: Place,
)
    requires exists { awaits ring.old.table thread pos ≡ true → thread < length ring.old.table.seats }
    requires places { length places.old ≡ length ring.old.table.seats }
    ensures closed { ring.new.cleared ≡ ring.old.cleared }
    ensures table { ring.new.table ≡ learning_from pos thread next ring.old.table }
    ensures places { places.new ≡ placing_from pos thread place ring.old.table places.old }
{
    if is_awaited(ring, thread, pos) {
        ring.learn(thread, next);
        places[thread.0 as usize] = place;
    }
}

/// Learns what the subthread of a position touches, where the position has not retired.
fn learn_foot(rol: &mut Rol, pos: Pos, foot: Footprint)
    ensures { rol.new.entries ≡ with_change_at pos (known_entry foot) rol.old.entries }
{
    if rol.get(pos).is_some() {
        rol.learn_foot(pos, foot);
    }
}

/// Takes the cells of a run's locks home and applies its effect, where that is to be. Where all is rolled back, no
/// history is kept.
fn apply_where(
    fresh: bool,
    recovery: Recovery,
    store: &mut Store,
    rol: &mut Rol,
    backup: &mut Backup,
    pos: Pos,
    bundles: Seq<Bundle>,
    old: Seq<(RecNo, i64)>,
    effect: Effect,
)
    requires comes { fresh ≡ true → MayComeHome store.old bundles old }
    requires fits { fresh ≡ true → Fits store.old (whole_effect store.old.under bundles old effect) }
    requires out { fresh ≡ true → IsSomeAnd (entry_at rol.old.entries pos) (λ e. e.state ≡ state.Out) }
    requires numbers { fresh ≡ true → All (λ e. e.pos < 4294967295) rol.old.entries }
    ensures { IsAppliedWhere fresh recovery pos (map lock_in bundles) (whole_effect store.old.under bundles old effect) store.old store.new rol.old.entries rol.new.entries backup.old backup.new }
{
    if fresh {
        let (history, lines) = store.accept_home(bundles, old, effect);
        match recovery {
            Recovery::Selective => rol.set_applied(pos, Some(history), lines),
            Recovery::Rollback(_) => {
                rol.set_applied(pos, None, lines);
                advance(backup, rol);
            }
        }
    }
}

// The cells of its locks that a task was given.
fn bundles_of(task: Task) -> Seq<Bundle>
    ensures { result ≡ task.given.bundles }
{
    let Task { given, .. } = task;
    given.bundles
}

// Takes the run of a task that is out, and applies it where its attempt is the present one, which is the answer: the
// cells of its locks then come home. Another attempt holds no lock. What its thread does next is learnt in any case,
// where it is awaited, and so is what the subthread touches, where it has not retired.
fn take(plan: &Plan, parts: &mut Parts, done: Done) -> bool
    requires kept { Kept (batch_in plan.now) parts.old }
    requires closed { parts.old.ring.cleared ≡ false }
    requires task { TaskStands (view_of (batch_in plan.now) parts.old) (task_of (batch_in plan.now).work done) }
    requires run { IsRun (batch_in plan.now).work done }
    requires room { 0 < parts.old.events.spare }
    ensures kept { Kept (batch_in plan.now) parts.new }
    ensures closed { parts.new.ring.cleared ≡ false }
    ensures did { Did (view_of (batch_in plan.now) parts.old) (event.Take done.task.pos done.task.attempt result) (view_of (batch_in plan.now) parts.new) }
    ensures fresh { result ≡ has_attempt done.task.attempt (entry_at parts.old.rol.entries done.task.pos) }
{
    let Done {
        task,
        old,
        effect,
        next,
        at,
        ctl,
        foot,
    } = done;
    let pos = task.pos;
    let thread = task.thread;
    let attempt = task.attempt;
    let bundles = bundles_of(task);
    let fresh = is_present(&parts.rol, pos, attempt);
    let place = Place { at, ctl };
    learn(&mut parts.ring, &mut parts.places, thread, pos, next, place);
    learn_foot(&mut parts.rol, pos, foot);
    apply_where(
        fresh,
        plan.recovery,
        &mut parts.store,
        &mut parts.rol,
        &mut parts.backup,
        pos,
        bundles,
        old,
        effect,
    );
    parts.events.push(Event::Take(pos, attempt, fresh));
    fresh
}

// Notes a run whose attempt is the present one. The error is that memory is out.
fn note_where<N: Notes>(
    rol: &Rol,
    work: &Work,
    done: &Done,
    notes: &mut N,
) -> Result<(), AllocError>
    requires { IsRun work.now done.now }
    ensures noted { OnOk result (NotesTaken (has_attempt done.now.task.attempt (entry_at rol.now.entries done.now.task.pos)) (N.tells notes.old) (N.tells notes.new) done.now.task.pos (effect_of work.now done.now)) }
    ensures unnoted { OnErr result (NotesNothing (N.tells notes.old) (N.tells notes.new)) }
{
    if is_present(rol, done.task.pos, done.task.attempt) {
        return notes.took(work, done);
    }
    Ok(())
}

/// Takes the run of a task that is out, and applies it where its attempt is the present one, which is the answer. What
/// is applied is noted first; the error is that memory is out for that, and changes nothing.
pub fn accept<N: Notes>(
    plan: &Plan,
    parts: &mut Parts,
    done: Done,
    notes: &mut N,
) -> Result<bool, AllocError>
    requires kept { Kept (batch_in plan.now) parts.old }
    requires closed { parts.old.ring.cleared ≡ false }
    requires task { TaskStands (view_of (batch_in plan.now) parts.old) (task_of (batch_in plan.now).work done) }
    requires run { IsRun (batch_in plan.now).work done }
    requires room { 0 < parts.old.events.spare }
    ensures kept { Kept (batch_in plan.now) parts.new }
    ensures closed { parts.new.ring.cleared ≡ false }
    ensures did { IfOk result (λ applies. Did (view_of (batch_in plan.now) parts.old) (event.Take done.task.pos done.task.attempt applies) (view_of (batch_in plan.now) parts.new)) }
    ensures err { OnErr result (view_of (batch_in plan.now) parts.new ≡ view_of (batch_in plan.now) parts.old) }
    ensures noted { IfOk result (λ applies. NotesTaken applies (N.tells notes.old) (N.tells notes.new) done.task.pos (effect_of (batch_in plan.now).work done)) }
    ensures unnoted { OnErr result (NotesNothing (N.tells notes.old) (N.tells notes.new)) }
{
    match note_where(&parts.rol, plan.work, &done, notes) {
        Ok(()) => Ok(take(plan, parts, done)),
        Err(error) => {
            drop(done);
            Err(error)
        }
    }
}
