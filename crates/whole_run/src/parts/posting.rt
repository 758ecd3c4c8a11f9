// Posting the present attempt of a position.

ghost use Rattle.std.specs.Prelude.{◌≡◌, ◌≤◌, true, false, [], ◌∷◌, ◌++◌, length, map, All, Contains, IfOk, IfErr, OnOk, OnErr};
ghost use Rattle.std.specs.Option.{IsSomeAnd};
ghost use Rattle.std.specs.List.Sorted.{IsStrictlyIncreasing};
ghost use Rattle.gp_base.specs.declared.journal.Event.TheVariants as event;
ghost use Rattle.dependence.specs.Standing.{present};
ghost use Rattle.record_store.specs.Lent.{lock_in, marked, AreAsLent};
ghost use Rattle.record_store.specs.Stored.{IsAtHome, IsAway};
ghost use Rattle.reorder_list.specs.Entries.{entry_at};
ghost use Rattle.subthread.specs.declared.task.Task.{Task};
ghost use Rattle.task_ast.specs.SyncOps.{IsNumbered};
ghost use Rattle.subthread.specs.Lending.{lent_by};
ghost use Rattle.subthread.specs.Tasks.{Fits};
ghost use Rattle.crew.specs.Out.{pair_of};
ghost use Rattle.whole_run.specs.View.{now};
ghost use Rattle.whole_run.specs.Gives.{Did, MayPostNow};
ghost use Rattle.whole_run.specs.Takes.{TaskStands};
ghost use Rattle.whole_run.specs.inner.Kept.{batch_in, view_of, Kept};
ghost use Rattle.whole_run.specs.inner.Posted.{bare_in};

use crate::parts::backing::open_block;
use crate::parts::{FaultsInOrder, Parts, Plan};
use crew::Crew;
use gp_base::{Event, Pos, Room, Seq};
use record_store::{Bundle, Given, Store};
use reorder_list::{Entry, Rol};
use std::alloc::{AllocError, AllocFailed, Global};
use std::thread::Threads;
use subthread::{Task, lend, room_for};

/// The task of an entry's present attempt, which has no cells yet.
fn bare_in(
    alloc: Global,
    faults: &FaultsInOrder,
    store: &Store,
    pos: Pos,
    entry: &Entry,
) -> Result<Task, AllocError>
    requires numbered { IsNumbered entry.now.begins.sync }
    ensures { IfOk result (λ task. task ≡ bare_in faults.now.list store.now pos entry.now) }
{
    let held = entry.held.copied(alloc)?;
    let ctl = entry.ctl.copied(alloc)?;
    let (regs, joined) = store.regs_of(alloc, entry.thread, entry.begins.sync.joined_by())?;
    let begins = entry.begins.copied(alloc)?;
    Ok(Task {
        pos,
        thread: entry.thread,
        attempt: entry.attempt,
        begins,
        at: entry.at,
        ctl,
        child: entry.child,
        given: Given {
            regs,
            joined,
            bundles: Seq::new(alloc),
        },
        held,
        mask: faults.mask_of(pos, entry.attempt),
    })
}

/// The task of a position's present attempt, which has no cells yet.
fn bare_at(
    alloc: Global,
    faults: &FaultsInOrder,
    store: &Store,
    rol: &Rol,
    pos: Pos,
) -> Result<Task, AllocError>
    requires found { IsSomeAnd (entry_at rol.now.entries pos) (λ e. IsNumbered e.begins.sync) }
    ensures { IfOk result (λ task. IsSomeAnd (entry_at rol.now.entries pos) (λ e. task ≡ bare_in faults.now.list store.now pos e)) }
{
    match rol.get(pos) {
        Some(entry) => bare_in(alloc, faults, store, pos, entry),
        None => unreachable!(),
    }
}

/// Hands a task to a crew. The error is that memory is out; the task comes back.
fn hand<R: Threads + Sync, C: Crew>(
    rt: &R,
    crew: &mut C,
    task: Task,
) -> Result<(), AllocFailed<Task>>
    requires ready { C.ready crew.old }
    requires fits { Fits (C.work crew.old) task }
    requires fresh { ¬ Contains (C.posted crew.old) (pair_of task) }
    ensures ready { C.ready crew.new }
    ensures work { C.work crew.new ≡ C.work crew.old }
    ensures out { OnOk result (C.out crew.new ≡ C.out crew.old ++ task ∷ []) }
    ensures posted { OnOk result (C.posted crew.new ≡ C.posted crew.old ++ pair_of task ∷ []) }
    ensures posted_kept { OnErr result (C.posted crew.new ≡ C.posted crew.old) }
    ensures out_kept { OnErr result (C.out crew.new ≡ C.out crew.old) }
    ensures back { IfErr result (λ refused. refused.value ≡ task) }
{
    crew.post(rt, task)
}

/// Takes home the cells that were lent to a task, which are as they were.
fn take_back(store: &mut Store, task: Task)
    requires away { All (λ b. IsAway store.old (lock_in b)) task.given.bundles }
    requires as_lent { AreAsLent store.old task.given.bundles }
    ensures { store.new ≡ record store.old { away = marked (map lock_in task.given.bundles) false store.old.away } }
{
    let Task { given, .. } = task;
    store.send_back(given.bundles);
}

/// Lends a task the cells of its locks and hands it to a crew. The error is that memory is out; the cells are home
/// again.
fn send<R: Threads + Sync, C: Crew>(
    rt: &R,
    crew: &mut C,
    store: &mut Store,
    task: Task,
    room: Room<Bundle>,
) -> Result<(), AllocError>
    requires ready { C.ready crew.old }
    requires fits { Fits (C.work crew.old) (lent_by store.old task) }
    requires fresh { ¬ Contains (C.posted crew.old) (pair_of task) }
    requires home { All (IsAtHome store.old) task.held }
    requires rising { IsStrictlyIncreasing task.held }
    requires empty { room.items ≡ [] }
    requires room { length task.held ≤ room.spare }
    ensures ready { C.ready crew.new }
    ensures work { C.work crew.new ≡ C.work crew.old }
    ensures out { OnOk result (C.out crew.new ≡ C.out crew.old ++ lent_by store.old task ∷ []) }
    ensures posted { OnOk result (C.posted crew.new ≡ C.posted crew.old ++ pair_of task ∷ []) }
    ensures lent { OnOk result (store.new ≡ record store.old { away = marked task.held true store.old.away }) }
    ensures posted_kept { OnErr result (C.posted crew.new ≡ C.posted crew.old) }
    ensures out_kept { OnErr result (C.out crew.new ≡ C.out crew.old) }
    ensures home { OnErr result (store.new ≡ store.old) }
{
    let task = lend(store, task, room);
    match hand(rt, crew, task) {
        Ok(()) => Ok(()),
        Err(refused) => {
            take_back(store, refused.value);
            Err(AllocError)
        }
    }
}

/// Posts the present attempt of a position to a crew of this run's work; the cells of its locks go out with it. The
/// error is that memory is out; nothing was posted then, and each cell is where it was. Where all is rolled back, the
/// data are copied before the first post of a block.
pub fn post<R: Threads + Sync, C: Crew>(
    alloc: Global,
    rt: &R,
    plan: &Plan,
    parts: &mut Parts,
    crew: &mut C,
    position: Pos,
) -> Result<(), AllocError>
    requires kept { Kept (batch_in plan.now) parts.old }
    requires closed { parts.old.ring.cleared ≡ false }
    requires may { MayPostNow (view_of (batch_in plan.now) parts.old) position }
    requires ready { C.ready crew.old }
    requires work { C.work crew.old ≡ (batch_in plan.now).work }
    requires posted { All (Contains (now (view_of (batch_in plan.now) parts.old)).posted) (C.posted crew.old) }
    ensures kept { Kept (batch_in plan.now) parts.new }
    ensures closed { parts.new.ring.cleared ≡ false }
    ensures did { OnOk result (Did (view_of (batch_in plan.now) parts.old) (event.Post position (present (now (view_of (batch_in plan.now) parts.old)) position)) (view_of (batch_in plan.now) parts.new)) }
    ensures err { OnErr result (view_of (batch_in plan.now) parts.new ≡ view_of (batch_in plan.now) parts.old) }
    ensures ready { C.ready crew.new }
    ensures work { C.work crew.new ≡ C.work crew.old }
    ensures out { OnOk result ((task : Task) × (C.out crew.new ≡ C.out crew.old ++ task ∷ []) × (pair_of task ≡ (position, present (now (view_of (batch_in plan.now) parts.old)) position)) × TaskStands (view_of (batch_in plan.now) parts.new) task) }
    ensures posted { OnOk result (C.posted crew.new ≡ C.posted crew.old ++ (position, present (now (view_of (batch_in plan.now) parts.old)) position) ∷ []) }
    ensures posted_kept { OnErr result (C.posted crew.new ≡ C.posted crew.old) }
    ensures out_kept { OnErr result (C.out crew.new ≡ C.out crew.old) }
{
    open_block(alloc, plan, parts, position)?;
    parts.events.reserve(1)?;
    let task = bare_at(alloc, &plan.faults, &parts.store, &parts.rol, position)?;
    let room = match room_for(alloc, task.held.len()) {
        Ok(room) => room,
        Err(error) => {
            drop(task);
            return Err(error);
        }
    };
    let attempt = task.attempt;
    send(rt, crew, &mut parts.store, task, room)?;
    parts.rol.set_out(position);
    parts.events.push(Event::Post(position, attempt));
    Ok(())
}
