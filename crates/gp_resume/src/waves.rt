// Subthreads that a crew runs beside one another.

ghost use Rattle.std.specs.Prelude.{◌≡◌, ◌-◌, ◌<◌, ◌≤◌, ℕ, true, false, [], ◌∷◌, ◌++◌, List, length, slice_set, Some, All, Contains, OnOk, OnErr, IfOk};
ghost use Rattle.std.specs.List.Sorted.{IsStrictlyIncreasing};
ghost use Rattle.task_ast.specs.Plain.{Plain};
ghost use Rattle.record_store.specs.Lent.{marked};
ghost use Rattle.record_store.specs.Stored.{IsAtHome};
ghost use Rattle.task_ast.specs.SyncOps.{IsNumbered};
ghost use Rattle.subthread.specs.Tasks.{Fits};
ghost use Rattle.crew.specs.Out.{pair_of};
ghost use Rattle.gp_resume.specs.inner.Course.{IsSuited};
ghost use Rattle.gp_resume.specs.inner.Handed.{bare_task, task_begun, MayTake, IsLeft};
ghost use Rattle.gp_resume.specs.inner.Flights.{Flown, Flight, Joins, task_from};
ghost use Rattle.gp_resume.specs.inner.Going.{rest, firsts_from};
ghost use Rattle.gp_resume.specs.inner.Flights.{StandsPast};
ghost use Rattle.gp_resume.specs.inner.Waves.{tasks_of, subthreads, IsJoining, BeginsFirst, Sent, IsSent, IsOne, ArePlaced, AreEmpty, AreRunsOf, IsComing, WentBy};
ghost use Rattle.gp_resume.specs.meaning.Resumed.{lines_of};
ghost use Rattle.gp_resume.specs.Resuming.{IsRefused, HasResumeCause};
ghost use Rattle.gp_base.specs.meaning.Sinks.{AppendsPrefix};
ghost use Rattle.std.specs.Io.KnownBytes.{Appends};
ghost use Rattle.restart_log.specs.meaning.Lines.{printed};

use crate::course::{Begun, Course, ResumePlan};
use crate::drive::put;
use crate::stop::ResumeStop;
use crew::{Crew, worth};
use gp_base::{Lines, Pos, Seq, Sink};
use record_store::{Given, Store};
use restart_log::printed;
use std::alloc::{AllocError, Global};
use std::mem;
use std::thread::Threads;
use subthread::{Done, Task, lend, room_for};

// The task of the subthread that begins, which has no cells yet.
fn bare_task(alloc: Global, store: &Store, begun: Begun) -> Result<Task, AllocError>
    requires numbered { IsNumbered begun.begins.sync }
    ensures { IfOk result (λ task. task ≡ bare_task store.now begun) }
{
    let joined = begun.begins.sync.joined_by();
    let (regs, joined) = store.regs_of(alloc, begun.thread, joined)?;
    let bundles = Seq::new(alloc);
    let Begun {
        pos,
        thread,
        begins,
        child,
        spot,
        held,
    } = begun;
    Ok(Task {
        pos,
        thread,
        attempt: 0,
        begins,
        at: spot.at,
        ctl: spot.ctl,
        child,
        given: Given {
            regs,
            joined,
            bundles,
        },
        held,
        mask: 0,
    })
}

// The task of the subthread that begins, with the cells of its locks.
fn task_begun(alloc: Global, store: &mut Store, begun: Begun) -> Result<Task, AllocError>
    requires numbered { IsNumbered begun.begins.sync }
    requires home { All (IsAtHome store.old) begun.held }
    requires rising { IsStrictlyIncreasing begun.held }
    ensures task { IfOk result (λ task. task ≡ task_begun store.old begun) }
    ensures store { OnOk result (store.new ≡ record store.old { away = marked begun.held true store.old.away }) }
{
    let task = bare_task(alloc, store, begun)?;
    let room = room_for(alloc, task.held.len())?;
    Ok(lend(store, task, room))
}

// Hands a task to a crew. The error is that memory is out.
fn hand<R: Threads + Sync, C: Crew>(rt: &R, crew: &mut C, task: Task) -> Result<(), AllocError>
    requires ready { C.ready crew.old }
    requires fits { Fits (C.work crew.old) task }
    requires fresh { ¬ Contains (C.posted crew.old) (pair_of task) }
    ensures ready { C.ready crew.new }
    ensures work { C.work crew.new ≡ C.work crew.old }
    ensures out { OnOk result (C.out crew.new ≡ C.out crew.old ++ task ∷ []) }
    ensures posted { OnOk result (C.posted crew.new ≡ C.posted crew.old ++ pair_of task ∷ []) }
    ensures posted_kept { OnErr result (C.posted crew.new ≡ C.posted crew.old) }
{
    match crew.post(rt, task) {
        Ok(()) => Ok(()),
        Err(_) => Err(AllocError),
    }
}

// Posts the subthread that begins; the cells of its locks go out with it. Gives how many steps it is reckoned to make. The
// error is that memory is out; nothing is said then of the course.
fn send<R: Threads + Sync, C: Crew>(
    rt: &R,
    alloc: Global,
    plan: &ResumePlan,
    course: &mut Course,
    crew: &mut C,
    begun: Begun,
) -> Result<u64, AllocError>
    requires suits { IsSuited plan.now }
    requires joins { IsJoining plan.now begun course.old }
    requires ready { C.ready crew.old }
    requires work { C.work crew.old ≡ plan.now.work.now }
    requires fresh { ¬ Contains (C.posted crew.old) (begun.pos, 0) }
    ensures flight { OnOk result ((threads : ℕ) (x : Plain) (fs : List Flown) (f : Flown) → f.begun ≡ begun → Joins plan.now threads x fs f course.old → Flight plan.now threads x f.after (fs ++ f ∷ []) course.new) }
    ensures out { OnOk result ((threads : ℕ) (x : Plain) (fs : List Flown) (f : Flown) → f.begun ≡ begun → Joins plan.now threads x fs f course.old → C.out crew.new ≡ C.out crew.old ++ task_from plan.now.work.now x.state begun ∷ []) }
    ensures ring { course.new.ring ≡ course.old.ring }
    ensures ready { C.ready crew.new }
    ensures work { C.work crew.new ≡ C.work crew.old }
    ensures posted { OnOk result (C.posted crew.new ≡ C.posted crew.old ++ (begun.pos, 0) ∷ []) }
    ensures posted_kept { OnErr result (C.posted crew.new ≡ C.posted crew.old) }
{
    let task = task_begun(alloc, &mut course.store, begun)?;
    let steps = plan.mean_steps.reckoned(&task);
    hand(rt, crew, task)?;
    Ok(steps)
}

// Whether subthreads that make so many steps, one of each of so many threads, are worth a second worker.
fn are_worth_two(steps: u64, threads: usize) -> bool {
    worth(steps.saturating_mul(threads as u64), steps) > 1
}

// Posts those that can begin beside the one that is out before it was run. Gives a place for the run of each. The error
// is that memory is out; some were posted then.
fn send_beside<R: Threads + Sync, C: Crew>(
    rt: &R,
    alloc: Global,
    plan: &ResumePlan,
    course: &mut Course,
    crew: &mut C,
    threads: usize,
) -> Result<Vec<Option<Done>>, AllocError>
    requires suits { IsSuited plan.now }
    requires sent { IsSent plan.now threads (C.posted crew.old) (C.out crew.old) course.old }
    requires one { IsOne (C.out crew.old) }
    requires closed { course.old.ring.cleared ≡ false }
    requires ready { C.ready crew.old }
    requires work { C.work crew.old ≡ plan.now.work.now }
    ensures sent { OnOk result ((x : Plain) (before : List (ℕ × ℕ)) → Sent plan.now threads x before (C.posted crew.old) (C.out crew.old) course.old → Sent plan.now threads x before (C.posted crew.new) (C.out crew.new) course.new) }
    ensures places { IfOk result (λ places. AreEmpty (C.out crew.new) places.items) }
    ensures some { (x : Plain) (before : List (ℕ × ℕ)) → Sent plan.now threads x before (C.posted crew.old) (C.out crew.old) course.old → (n : ℕ) × (n ≤ length (rest plan.now x)) × (C.posted crew.new ≡ before ++ firsts_from x.table.issued n) }
    ensures ready { C.ready crew.new }
    ensures work { C.work crew.new ≡ C.work crew.old }
{
    let mut places = Vec::new(alloc);
    places.push(None)?;
    'sending: while let Some(begun) = course.next_beside(alloc, plan, threads)? {
        send(rt, alloc, plan, course, crew, begun)?;
        places.push(None)?;
    }
    Ok(places)
}

// How many places after the first a position stands.
fn place(first: Pos, position: Pos) -> usize
    requires behind { first ≤ position }
    ensures { result ≡ position - first }
{
    (position.0 - first.0) as usize
}

// The position whose run this is.
fn position_of(done: &Done) -> Pos
    ensures { result ≡ done.now.task.pos }
{
    done.task.pos
}

// Puts a run at its place.
fn keep(runs: Vec<Option<Done>>, at: usize, done: Done) -> Vec<Option<Done>>
    requires inside { at < length runs.items }
    ensures { result.items ≡ slice_set runs.items at (Some done) }
{
    let mut runs = runs;
    drop(mem::replace(&mut runs[at], Some(done)));
    runs
}

// The runs of all tasks that are out, in the order of their positions, of which the first is given, with a place for
// each.
fn collect<R: Threads + Sync, C: Crew>(
    rt: &R,
    crew: &mut C,
    first: Pos,
    places: Vec<Option<Done>>,
) -> Result<Vec<Option<Done>>, AllocError>
    requires ready { C.ready crew.old }
    requires placed { ArePlaced first (C.out crew.old) }
    requires places { AreEmpty (C.out crew.old) places.items }
    ensures ready { C.ready crew.new }
    ensures work { C.work crew.new ≡ C.work crew.old }
    ensures none_left { OnOk result (C.out crew.new ≡ []) }
    ensures posted { C.posted crew.new ≡ C.posted crew.old }
    ensures runs { IfOk result (λ runs. AreRunsOf (C.work crew.old) (C.out crew.old) runs.items) }
{
    let mut runs = places;
    'collecting: loop {
        match crew.next(rt)? {
            None => return Ok(runs),
            Some(done) => {
                let position = position_of(&done);
                let at = place(first, position);
                runs = keep(runs, at, done);
            }
        }
    }
}

// Takes the cells of a run's locks home, leaves what it leaves, and gives the lines that it printed.
fn take(course: &mut Course, done: Done) -> Lines
    requires { MayTake done course.old }
    ensures left { IsLeft done course.old course.new }
    ensures lines { result ≡ done.effect.prints }
{
    let Done {
        task,
        old,
        effect,
        next,
        at,
        ctl,
        ..
    } = done;
    let Task { thread, given, .. } = task;
    let Given { bundles, .. } = given;
    let (_, lines) = course.store.accept_home(bundles, old, effect);
    course.leave(thread, next, at, ctl);
    lines
}

// Takes what a run leaves, and writes the lines that it printed.
fn bring<O: Sink>(
    alloc: Global,
    course: &mut Course,
    out: &mut O,
    done: Done,
) -> Result<(), ResumeStop>
    requires { MayTake done course.old }
    ensures left { IsLeft done course.old course.new }
    ensures lines { OnOk result (Appends (O.written out.old) (O.written out.new) (printed done.effect.prints)) }
    ensures partly { AppendsPrefix (O.written out.old) (O.written out.new) (printed done.effect.prints) }
    ensures cause { HasResumeCause (O.faults out.old) (O.faults out.new) result }
    ensures told { ¬ IsRefused result }
{
    let lines = take(course, done);
    let text = printed(alloc, &lines)?;
    put(out, &text)
}

// Has a crew run the one subthread that is out, takes what it leaves, and writes the lines that it printed.
fn go_alone<R: Threads + Sync, C: Crew, O: Sink>(
    rt: &R,
    alloc: Global,
    _plan: &ResumePlan,
    course: &mut Course,
    crew: &mut C,
    out: &mut O,
) -> Result<(), ResumeStop>
    requires suits { IsSuited _plan.now }
    requires sent { (threads : ℕ) × IsSent _plan.now threads (C.posted crew.old) (C.out crew.old) course.old }
    requires one { IsOne (C.out crew.old) }
    requires ready { C.ready crew.old }
    requires work { C.work crew.old ≡ _plan.now.work.now }
    ensures went { OnOk result ((threads : ℕ) (x : Plain) (before : List (ℕ × ℕ)) → Sent _plan.now threads x before (C.posted crew.old) (C.out crew.old) course.old → WentBy _plan.now x (O.written out.old) (O.written out.new) before (C.posted crew.new) course.new) }
    ensures partly { (threads : ℕ) (x : Plain) (before : List (ℕ × ℕ)) → Sent _plan.now threads x before (C.posted crew.old) (C.out crew.old) course.old → AppendsPrefix (O.written out.old) (O.written out.new) (printed (lines_of (rest _plan.now x))) }
    ensures posted { C.posted crew.new ≡ C.posted crew.old }
    ensures ready { C.ready crew.new }
    ensures work { C.work crew.new ≡ C.work crew.old }
    ensures none_left { OnOk result (C.out crew.new ≡ []) }
    ensures cause { HasResumeCause (O.faults out.old) (O.faults out.new) result }
    ensures told { ¬ IsRefused result }
{
    match crew.next(rt)? {
        Some(done) => bring(alloc, course, out, done),
        None => Ok(()),
    }
}

// Takes what each run leaves, in order, and writes the lines that it printed.
fn bring_home<O: Sink>(
    alloc: Global,
    _plan: &ResumePlan,
    course: &mut Course,
    out: &mut O,
    runs: Vec<Option<Done>>,
) -> Result<(), ResumeStop>
    requires suits { IsSuited _plan.now }
    requires coming { IsComing _plan.now runs.items course.old }
    ensures stands { OnOk result ((threads : ℕ) (x : Plain) (y : Plain) (fs : List Flown) → Flight _plan.now threads x y fs course.old → AreRunsOf _plan.now.work.now (tasks_of _plan.now x fs) runs.items → StandsPast _plan.now y course.new) }
    ensures lines { OnOk result ((threads : ℕ) (x : Plain) (y : Plain) (fs : List Flown) → Flight _plan.now threads x y fs course.old → AreRunsOf _plan.now.work.now (tasks_of _plan.now x fs) runs.items → Appends (O.written out.old) (O.written out.new) (printed (lines_of (subthreads fs)))) }
    ensures partly { (threads : ℕ) (x : Plain) (y : Plain) (fs : List Flown) → Flight _plan.now threads x y fs course.old → AreRunsOf _plan.now.work.now (tasks_of _plan.now x fs) runs.items → AppendsPrefix (O.written out.old) (O.written out.new) (printed (lines_of (subthreads fs))) }
    ensures cause { HasResumeCause (O.faults out.old) (O.faults out.new) result }
    ensures told { ¬ IsRefused result }
{
    for run in runs {
        match run {
            Some(done) => bring(alloc, course, out, done)?,
            None => unreachable!(),
        }
    }
    Ok(())
}

// The position of the subthread that begins.
fn position_begun(begun: &Begun) -> Pos
    ensures { result ≡ begun.now.pos }
{
    begun.pos
}

/// What a wave begins with: a subthread that begins, and how many threads there were before it.
#[derive(Drop)]
pub struct Leader {
    pub threads: usize,
    pub begun: Begun,
}

/// Has a crew run the subthread that begins, and those that can begin beside it, which are of the threads that were
/// there before it, takes what they leave, and writes their lines, all in order. It goes alone where it is reckoned to be
/// so light that one like it of each thread would be worth one worker. The error is that memory is out, or that the
/// output took no more; a part of the lines is written then.
pub fn go_wave<R: Threads + Sync, C: Crew, O: Sink>(
    rt: &R,
    alloc: Global,
    plan: &ResumePlan,
    course: &mut Course,
    crew: &mut C,
    out: &mut O,
    leader: Leader,
) -> Result<(), ResumeStop>
    requires suits { IsSuited plan.now }
    requires begins { BeginsFirst plan.now leader.threads leader.begun course.old }
    requires closed { course.old.ring.cleared ≡ false }
    requires ready { C.ready crew.old }
    requires work { C.work crew.old ≡ plan.now.work.now }
    requires none_out { C.out crew.old ≡ [] }
    requires fresh { (p : ℕ) → leader.begun.pos ≤ p → ¬ Contains (C.posted crew.old) (p, 0) }
    ensures went { OnOk result ((x : Plain) (f : Flown) → f.begun ≡ leader.begun → Joins plan.now leader.threads x [] f course.old → WentBy plan.now x (O.written out.old) (O.written out.new) (C.posted crew.old) (C.posted crew.new) course.new) }
    ensures partly { (x : Plain) (f : Flown) → f.begun ≡ leader.begun → Joins plan.now leader.threads x [] f course.old → AppendsPrefix (O.written out.old) (O.written out.new) (printed (lines_of (rest plan.now x))) }
    ensures some { (x : Plain) (f : Flown) → f.begun ≡ leader.begun → Joins plan.now leader.threads x [] f course.old → (n : ℕ) × (n ≤ length (rest plan.now x)) × (C.posted crew.new ≡ C.posted crew.old ++ firsts_from x.table.issued n) }
    ensures ready { C.ready crew.new }
    ensures work { C.work crew.new ≡ C.work crew.old }
    ensures none_left { OnOk result (C.out crew.new ≡ []) }
    ensures cause { HasResumeCause (O.faults out.old) (O.faults out.new) result }
    ensures told { ¬ IsRefused result }
{
    let Leader { threads, begun } = leader;
    let first = position_begun(&begun);
    let steps = send(rt, alloc, plan, course, crew, begun)?;
    if !are_worth_two(steps, threads) {
        return go_alone(rt, alloc, plan, course, crew, out);
    }
    let places = send_beside(rt, alloc, plan, course, crew, threads)?;
    let runs = collect(rt, crew, first, places)?;
    bring_home(alloc, plan, course, out, runs)
}
