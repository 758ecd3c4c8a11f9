// Issuing the next subthread.

ghost use Rattle.std.specs.Prelude.{◌≡◌, ◌<◌, ◌≤◌, ◌+◌, ◌^◌, true, false, length, IfSome, IfOk, OnOk, OnErr};
ghost use Rattle.gp_base.specs.declared.limits.TheConstants.{MOST_THREADS};
ghost use Rattle.dependence.specs.meaning.Restarts.{NoneDue};
ghost use Rattle.task_ast.specs.SyncOps.{IsNumbered};
ghost use Rattle.task_ast.specs.Turn.{turns_left};
ghost use Rattle.reorder_list.specs.Entries.{ComesNext};
ghost use Rattle.token_order.specs.Turned.{Turned};
ghost use Rattle.record_store.specs.Stored.{state_of};
ghost use Rattle.whole_run.specs.View.{now};
ghost use Rattle.whole_run.specs.Gives.{IssueGives};
ghost use Rattle.whole_run.specs.inner.RingStands.{StartIs};
ghost use Rattle.whole_run.specs.inner.Kept.{batch_in, view_of, IsPlaceIn, Kept};
ghost use Rattle.whole_run.specs.inner.Prepared.{settled_in, forks, new_entry, PreparedFor, IsPrepared, IsReadyFor, IsPushed, IsSlotted, SameParts, HasRoom, TurnGives};

use crate::parts::{Parts, Place, Plan};
use crate::{Halt, Issued};
use gp_base::{At, End, Event, Footprint, LockNo, Pos, Seq, ThreadNo};
use record_store::Store;
use reorder_list::{Entry, State};
use std::alloc::{AllocError, Global};
use subthread::lock_footprint;
use task_ast::{Next, SyncOp};
use token_order::{Ring, Turn};

/// What the entry of the thread ahead needs, and the place at which its child starts.
#[derive(Drop)]
pub struct Prepared {
    pub place: Place,
    pub held: Seq<LockNo>,
    pub locks: Footprint,
    pub start: Option<Place>,
}

/// Whether a child starts.
fn forks(prepared: &Option<Prepared>) -> bool
    ensures { result ≡ forks prepared.now }
{
    match prepared {
        Some(prepared) => prepared.start.is_some(),
        None => false,
    }
}

/// Where the child of a fork starts.
fn start_of(
    alloc: Global,
    plan: &Plan,
    sync: &SyncOp,
    threads: usize,
) -> Result<Option<Place>, AllocError>
    ensures { IfOk result (λ start. StartIs (batch_in plan.now) (IsPlaceIn (batch_in plan.now)) threads sync.now start) }
{
    match sync {
        SyncOp::Fork { task, args } => {
            let ctl = plan.work.code.start_values(alloc, *task, args)?;
            let at = At { task: *task, pc: 0 };
            Ok(Some(Place { at, ctl }))
        }
        _ => Ok(None),
    }
}

/// What an issue of the thread needs.
fn prepare_for(
    alloc: Global,
    plan: &Plan,
    parts: &Parts,
    thread: ThreadNo,
    begins: &Next,
) -> Result<Prepared, AllocError>
    requires exists { thread < length parts.now.places.items }
    requires places { length parts.now.places.items ≡ length parts.now.ring.table.seats }
    requires few { length parts.now.places.items ≤ MOST_THREADS }
    requires numbered { IsNumbered begins.now.sync }
    ensures { IfOk result (PreparedFor (batch_in plan.now) parts.now.ring.table parts.now.places.items thread begins.now.sync) }
{
    let threads = parts.places.len();
    let place = parts.places[thread.0 as usize].copied(alloc)?;
    let held = parts.ring.held_after(alloc, thread, &begins.sync)?;
    let child = begins.sync.child_of(threads);
    let locks = lock_footprint(alloc, begins, thread, child, &held)?;
    let start = start_of(alloc, plan, &begins.sync, threads)?;
    Ok(Prepared {
        place,
        held,
        locks,
        start,
    })
}

/// What the next turn needs to issue the thread ahead; nothing where it can issue none.
fn prepare(alloc: Global, plan: &Plan, parts: &Parts) -> Result<Option<Prepared>, AllocError>
    requires places { length parts.now.places.items ≡ length parts.now.ring.table.seats }
    requires few { length parts.now.places.items ≤ MOST_THREADS }
    ensures { IfOk result (λ prepared. IsPrepared (batch_in plan.now) parts.now.ring.table parts.now.places.items prepared) }
{
    let Some(thread) = parts.ring.ahead() else {
        return Ok(None);
    };
    let Some(begins) = parts.ring.next_of(thread) else {
        return Ok(None);
    };
    if !parts.ring.lets(&begins.sync) {
        return Ok(None);
    }
    let prepared = prepare_for(alloc, plan, parts, thread, begins)?;
    Ok(Some(prepared))
}

/// Adds an empty slot for the registers of a child, where one may be forked and there are no more slots than threads.
/// The fork fills it.
fn reserve_slot(
    alloc: Global,
    store: &mut Store,
    threads: usize,
    forks: bool,
) -> Result<(), AllocError>
    requires { threads ≤ length store.old.threads }
    ensures slot { OnOk result (forks ≡ true → threads < length store.new.threads) }
    ensures grown { IsSlotted store.old store.new }
{
    if forks && store.len() <= threads {
        store.reserve_thread(alloc, 0)?;
    }
    Ok(())
}

/// Makes room for one more thread, entry and event.
fn reserve_room(parts: &mut Parts) -> Result<(), AllocError>
    ensures same { SameParts parts.old parts.new }
    ensures store { parts.new.store ≡ parts.old.store }
    ensures closed { parts.new.ring.cleared ≡ parts.old.ring.cleared }
    ensures thread { OnOk result (0 < parts.new.ring.spare) }
    ensures room { OnOk result (HasRoom parts.new) }
{
    parts.ring.reserve()?;
    parts.places.reserve(1)?;
    parts.rol.reserve()?;
    parts.events.reserve(1)?;
    Ok(())
}

/// Takes all memory that the next turn can need.
fn make_ready(alloc: Global, plan: &Plan, parts: &mut Parts) -> Result<Option<Prepared>, AllocError>
    requires kept { Kept (batch_in plan.now) parts.old }
    requires closed { parts.old.ring.cleared ≡ false }
    ensures kept { Kept (batch_in plan.now) parts.new }
    ensures closed { parts.new.ring.cleared ≡ false }
    ensures same { SameParts parts.old parts.new }
    ensures thread { OnOk result (0 < parts.new.ring.spare) }
    ensures room { OnOk result (HasRoom parts.new) }
    ensures ready { IfOk result (λ prepared. IsReadyFor (batch_in plan.now) parts.new prepared) }
{
    reserve_room(parts)?;
    let prepared = prepare(alloc, plan, parts)?;
    let forks = forks(&prepared);
    match reserve_slot(alloc, &mut parts.store, parts.places.len(), forks) {
        Ok(()) => Ok(prepared),
        Err(error) => {
            drop(prepared);
            Err(error)
        }
    }
}

/// Adds the entry of the subthread that was issued, its child's place and the event.
fn push(
    alloc: Global,
    parts: &mut Parts,
    thread: ThreadNo,
    begins: Next,
    child: Option<ThreadNo>,
    prepared: Prepared,
) -> Pos
    requires room { HasRoom parts.old }
    requires next { ComesNext parts.old.rol.entries parts.old.issued }
    requires few { parts.old.issued + 1 < 2 ^ 32 }
    ensures pos { result ≡ parts.old.issued }
    ensures parts { IsPushed parts.old parts.new (new_entry parts.old.issued thread begins child prepared) prepared.start }
{
    let pos = Pos(parts.issued);
    let Prepared {
        place,
        held,
        locks,
        start,
    } = prepared;
    let Place { at, ctl } = place;
    parts.rol.push_back(Entry {
        pos,
        thread,
        begins,
        at,
        ctl,
        held,
        child,
        attempt: 0,
        begun: parts.issued + 1,
        state: State::Waiting,
        locks,
        foot: None,
        hist: None,
        prints: Seq::new(alloc),
    });
    if let Some(start) = start {
        parts.places.push_reserved(start);
    }
    parts.events.push(Event::Issue(pos));
    parts.issued += 1;
    parts.ended = None;
    pos
}

// A turn of the ring, in which a settle is let where no position is left to retire. It is never let between two turns.
fn ring_turn(ring: &mut Ring, alone: bool) -> Turn
    requires closed { ring.old.cleared ≡ false }
    requires spare { 0 < ring.old.spare }
    ensures turned { Turned alone ring.old.table result ring.new.table }
    ensures closed { ring.new.cleared ≡ false }
{
    let first = ring.turn();
    if !alone {
        return first;
    }
    match first {
        Turn::Settles(_) => {
            ring.clear();
            ring.turn()
        }
        Turn::Pass => Turn::Pass,
        Turn::Needs(thread) => Turn::Needs(thread),
        Turn::Ended(end) => Turn::Ended(end),
        Turn::Issue {
            thread,
            begins,
            child,
        } => Turn::Issue {
            thread,
            begins,
            child,
        },
    }
}

// What was prepared, where a settle has set its variable to the value of its register.
fn settled(prepared: Prepared, begins: &SyncOp, thread: ThreadNo, store: &Store) -> Prepared
    ensures { result ≡ settled_in begins.now (state_of store.now) thread prepared }
{
    let mut prepared = prepared;
    match begins {
        SyncOp::Settle { reg, ctl } => {
            let value = store.register(thread, *reg as usize);
            let at = *ctl as usize;
            if at < prepared.place.ctl.len() {
                prepared.place.ctl.set(at, value);
            }
        }
        SyncOp::Start => {}
        SyncOp::Lock(_) => {}
        SyncOp::Unlock(_) => {}
        SyncOp::Fork { .. } => {}
        SyncOp::Join(_) => {}
        SyncOp::Barrier(_) => {}
        SyncOp::End => {}
        SyncOp::BadIndex => {}
        SyncOp::Spent => {}
    }
    prepared
}

// The run ends so.
fn halted(end: End) -> Halt
    ensures { result ≡ Halt.Ended end }
{
    Halt::Ended(end)
}

/// One turn.
fn turn(
    alloc: Global,
    _plan: &Plan,
    parts: &mut Parts,
    prepared: Option<Prepared>,
) -> Option<Issued>
    requires kept { Kept (batch_in _plan.now) parts.old }
    requires none_due { NoneDue (batch_in _plan.now).faults (now (view_of (batch_in _plan.now) parts.old)).progress }
    requires thread { 0 < parts.old.ring.spare }
    requires room { HasRoom parts.old }
    requires ready { IsReadyFor (batch_in _plan.now) parts.old prepared }
    requires closed { parts.old.ring.cleared ≡ false }
    ensures closed { parts.new.ring.cleared ≡ false }
    ensures kept { Kept (batch_in _plan.now) parts.new }
    ensures gives { TurnGives (batch_in _plan.now) parts.old parts.new result }
{
    let alone = parts.rol.len() == 0;
    match ring_turn(&mut parts.ring, alone) {
        Turn::Pass => None,
        Turn::Needs(thread) => Some(Issued::Needs(thread)),
        Turn::Settles(thread) => {
            parts.ended = Some(Halt::Settling);
            Some(Issued::Settles(thread))
        }
        Turn::Ended(end) => {
            let known = end;
            parts.ended = Some(halted(known));
            Some(Issued::Ended(end))
        }
        Turn::Issue {
            thread,
            begins,
            child,
        } => {
            let ready = settled(prepared.unwrap(), &begins.sync, thread, &parts.store);
            let pos = push(alloc, parts, thread, begins, child, ready);
            Some(Issued::One(pos))
        }
    }
}

// The threads to which the token comes next pass, as far as they wait at barriers.
fn pass_waiting(_plan: &Plan, parts: &mut Parts)
    requires kept { Kept (batch_in _plan.now) parts.old }
    requires closed { parts.old.ring.cleared ≡ false }
    ensures kept { Kept (batch_in _plan.now) parts.new }
    ensures closed { parts.new.ring.cleared ≡ false }
    ensures view { view_of (batch_in _plan.now) parts.new ≡ view_of (batch_in _plan.now) parts.old }
    ensures fewer { turns_left parts.new.ring.table ≤ turns_left parts.old.ring.table }
{
    parts.ring.pass_waiting();
}

// The thread that the token comes to, where its next synchronisation is needed first.
fn needed(_plan: &Plan, parts: &Parts) -> Option<Issued>
    requires kept { Kept (batch_in _plan.now) parts.now }
    ensures { IfSome result (IssueGives (view_of (batch_in _plan.now) parts.now) (view_of (batch_in _plan.now) parts.now)) }
{
    let thread = parts.ring.needs()?;
    Some(Issued::Needs(thread))
}

/// Issues the next subthread, or answers which thread's next synchronisation is needed first, or how the run ends.
pub fn issue(alloc: Global, plan: &Plan, parts: &mut Parts) -> Result<Issued, AllocError>
    requires kept { Kept (batch_in plan.now) parts.old }
    requires closed { parts.old.ring.cleared ≡ false }
    requires none_due { NoneDue (batch_in plan.now).faults (now (view_of (batch_in plan.now) parts.old)).progress }
    ensures kept { Kept (batch_in plan.now) parts.new }
    ensures closed { parts.new.ring.cleared ≡ false }
    ensures gives { IfOk result (IssueGives (view_of (batch_in plan.now) parts.old) (view_of (batch_in plan.now) parts.new)) }
    ensures err { OnErr result (view_of (batch_in plan.now) parts.new ≡ view_of (batch_in plan.now) parts.old) }
{
    'turning: loop {
        pass_waiting(plan, parts);
        if let Some(needs) = needed(plan, parts) {
            return Ok(needs);
        }
        let prepared = make_ready(alloc, plan, parts)?;
        if let Some(issued) = turn(alloc, plan, parts, prepared) {
            return Ok(issued);
        }
    }
}
