// The run of a task.
ghost use Rattle.std.specs.Prelude.{◌≡◌, [], length, map, option_map, All, true, IfOk, IfErr};
ghost use Rattle.std.specs.List.Sorted.{IsStrictlyIncreasing};
ghost use Rattle.std.specs.Ordering.{nat_cmp};
ghost use Rattle.std.specs.FinMap.{is_sorted};
ghost use Rattle.task_ast.specs.Damage.{damaged};
ghost use Rattle.task_ast.specs.meaning.Under.{under_lock, is_under};
ghost use Rattle.record_store.specs.Lent.{lock_in, put_back, whole_effect};
ghost use Rattle.record_store.specs.declared.given.Bundle.{Bundle as BundleThere};
ghost use Rattle.task_ast.specs.SyncOps.{IsNumbered};
ghost use Rattle.subthread.specs.Tasks.{with_bundles, under_of, task_of, Fits, IsRun};
ghost use Rattle.subthread.specs.inner.Running.{doing_of, Holds, IsTask, AreAtHand};
ghost use Rattle.subthread.specs.inner.Leaving.{IsGroundOf, Walked, actions_at, named_footprint, effect_in, EndsAs};
ghost use Rattle.subthread.specs.inner.Attempts.{Agrees};

use crate::attempts::{Walk, attempts, given_back};
use crate::begins::begin;
use crate::cells::{CellsAtHand, disturb_first};
use crate::damage::damage;
use crate::footprints::footprint;
use crate::ground::{Cursor, Doing, Ground};
use crate::names::Names;
use crate::numbers::narrow;
use crate::walk::run_body;
use crate::{Disturbance, Done, Recheck, Task, Work};
use gp_base::{At, Footprint, Lines, Nums, RecNo, Seq, ThreadNo};
use record_store::{Bundle, Effect, Summed};
use std::alloc::{AllocError, AllocFailed, Global};
use std::mem;
use std::snapshot::Snapshot;
use std::sync::atomic::AtomicBool;
use task_ast::Next;

// What the run of a task reads.
fn ground_of<'a>(work: &'a Work, task: &Task) -> Ground<'a>
    ensures is { IsGroundOf work.now task.now result }
    ensures task { IsTask result }
{
    work.code.facts();
    Ground {
        code: &work.code,
        task: task.at.task,
        instrs: work.code.instrs(task.at.task),
        feeds: work.feeds.as_slice(),
        recheck: &work.recheck,
        under: work.code.layout().under.as_slice(),
        bundles: Snapshot::of(&task.given.bundles),
        joined: task.given.joined,
        me: task.thread,
        is_misfed: AtomicBool::new(false),
    }
}

/// The cells of the bundles at hand, of which none was written.
pub fn cells_of<'a>(alloc: Global, work: &'a Work, bundles: Seq<Bundle>) -> CellsAtHand<'a>
    requires rising { IsStrictlyIncreasing (map lock_in bundles) }
    requires sizes { All (λ (b : BundleThere). length b.cells ≡ length (under_lock (under_of work.now) b.lock)) bundles }
    ensures { result ≡ record { under = under_of work.now; came = bundles; written = [] } }
{
    work.code.facts();
    let under = work.code.layout().under.as_slice();
    let over = work.code.over().as_slice();
    CellsAtHand::new(alloc, under, over, bundles)
}

// Performs the synchronisation with which a task begins and walks through its body. Gives what comes next.
fn reached(
    alloc: Global,
    work: &Work,
    task: &Task,
    ground: &Ground,
    cursor: &mut Cursor,
    doing: &mut Doing,
    names: &mut Names,
) -> Result<Next, AllocError>
    requires is { IsGroundOf work.now (with_bundles ground.now.bundles.value task.now) ground.now }
    requires task { IsTask ground.now }
    requires holds { Holds ground.now doing.old }
    requires named { AreAtHand ground.now (actions_at work.now (with_bundles ground.now.bundles.value task.now) cursor.old) }
    requires none { names.old ≡ record { reads = []; writes = [] } }
    ensures walked { IfOk result (λ next. Walked work.now (with_bundles ground.now.bundles.value task.now) (next, named_footprint task.now.thread task.now.begins.sync task.now.child names.new) cursor.old (doing_of doing.old) cursor.new (doing_of doing.new)) }
    ensures holds { Holds ground.now doing.new }
{
    begin(alloc, &task.begins.sync, ground, task.child, cursor, doing)?;
    run_body(alloc, ground, work.turns, cursor, doing, names)
}

// What comes next, with what the subthread reads and writes, whose actions name these cells.
fn with_footprint(
    alloc: Global,
    task: &Task,
    names: Names,
    next: Next,
) -> Result<(Next, Footprint), AllocError>
    requires { IsNumbered task.now.begins.sync }
    ensures { IfOk result (λ end. end ≡ (next, named_footprint task.now.thread task.now.begins.sync task.now.child names)) }
{
    let foot = footprint(alloc, &task.begins, task.thread, task.child, &names);
    drop(names);
    match foot {
        Ok(foot) => Ok((next, foot)),
        Err(halt) => {
            drop(next);
            Err(halt)
        }
    }
}

/// Walks from where a task stands to its next synchronisation; the task's bundles are with the cells at hand. Gives
/// that, and what the subthread reads and writes.
pub fn walk(
    alloc: Global,
    work: &Work,
    task: &Task,
    ground: &Ground,
    cursor: &mut Cursor,
    doing: &mut Doing,
) -> Result<(Next, Footprint), AllocError>
    requires numbered { IsNumbered task.now.begins.sync }
    requires is { IsGroundOf work.now (with_bundles ground.now.bundles.value task.now) ground.now }
    requires task { IsTask ground.now }
    requires holds { Holds ground.now doing.old }
    requires named { AreAtHand ground.now (actions_at work.now (with_bundles ground.now.bundles.value task.now) cursor.old) }
    ensures walked { IfOk result (λ end. Walked work.now (with_bundles ground.now.bundles.value task.now) end cursor.old (doing_of doing.old) cursor.new (doing_of doing.new)) }
    ensures holds { Holds ground.now doing.new }
{
    let mut names = Names::new(alloc);
    match reached(alloc, work, task, ground, cursor, doing, &mut names) {
        Ok(next) => with_footprint(alloc, task, names, next),
        Err(halt) => {
            drop(names);
            Err(halt)
        }
    }
}

// Registers with the sum over them, of which a bit is turned where a test says so.
fn summed(recheck: &Recheck, regs: Summed) -> Summed
    ensures { result ≡ regs }
{
    let mut regs = regs.summed();
    if recheck.disturbs(Disturbance::RegisterSum) {
        regs.disturb();
    }
    regs
}

// The registers of a child with the sum over them.
fn summed_child(child: Option<(ThreadNo, Summed)>) -> Option<(ThreadNo, Summed)>
    ensures { result ≡ child }
{
    match child {
        Some((child, regs)) => Some((child, regs.summed())),
        None => None,
    }
}

// An effect with the sums over its registers.
fn all_summed(recheck: &Recheck, effect: Effect) -> Effect
    ensures { result ≡ effect }
{
    let Effect {
        thread,
        regs,
        child,
        prints,
    } = effect;
    Effect {
        thread,
        regs: summed(recheck, regs),
        child: summed_child(child),
        prints,
    }
}

// An effect with the sums over its registers, where walks are made twice.
fn with_sums(recheck: &Recheck, effect: Effect) -> Effect
    ensures { result ≡ effect }
{
    if recheck.is_on() {
        all_summed(recheck, effect)
    } else {
        effect
    }
}

// Bundles of which the first has a bit of its sum turned, where a test says so.
fn left_at_rest(recheck: &Recheck, bundles: Seq<Bundle>) -> Seq<Bundle>
    ensures { result ≡ bundles }
{
    let mut bundles = bundles.into_vec();
    if !bundles.is_empty() && recheck.disturbs(Disturbance::BundleSum) {
        disturb_first(&mut bundles);
    }
    Seq::from_vec(bundles)
}

// A child with its registers, where there is one.
fn child_of(child: Option<ThreadNo>, regs: Nums) -> Option<(ThreadNo, Summed)>
    ensures { result ≡ option_map (λ c. (c, regs)) child }
{
    match child {
        Some(child) => Some((child, Summed::plain(regs))),
        None => None,
    }
}

// What was done beside cells, as an effect.
fn effect_of(
    thread: ThreadNo,
    child: Option<ThreadNo>,
    regs: Nums,
    child_regs: Nums,
    prints: Lines,
) -> Effect
    ensures { result ≡ record { thread = thread; regs = regs; child = option_map (λ c. (c, child_regs)) child; prints = prints } }
{
    Effect {
        thread,
        regs: Summed::plain(regs),
        child: child_of(child, child_regs),
        prints,
    }
}

// Ends a run: the mask falls on all that it did. Gives the bundles with their new values, the old ones, and the effect,
// whose registers have sums where walks are made twice. The error is that memory is out, and has the bundles as they
// came.
fn end(
    alloc: Global,
    recheck: &Recheck,
    mask: i64,
    thread: ThreadNo,
    child: Option<ThreadNo>,
    doing: Doing,
) -> Result<(Seq<Bundle>, Seq<(RecNo, i64)>, Effect), Seq<Bundle>>
    ensures came { IfOk result (λ left. put_back doing.entry.cells.under left.1 left.0 ≡ doing.entry.cells.came) }
    ensures effect { IfOk result (λ left. whole_effect doing.entry.cells.under left.0 left.1 left.2 ≡ damaged mask (effect_in thread child (doing_of doing.entry))) }
    ensures rising { IfOk result (λ left. is_sorted nat_cmp left.1 ≡ true) }
    ensures within { IfOk result (λ left. All (λ w. is_under doing.entry.cells.under (map lock_in doing.entry.cells.came) w.0 ≡ true) left.1) }
    ensures back { IfErr result (λ bundles. bundles ≡ doing.entry.cells.came) }
{
    let Doing {
        regs,
        child: child_regs,
        cells,
        lines,
        ..
    } = doing;
    let effect = effect_of(thread, child, regs, child_regs, lines);
    let Ok(effect) = damage(alloc, mask, effect) else {
        return Err(cells.take_back());
    };
    let effect = with_sums(recheck, effect);
    match cells.finish(alloc, mask) {
        Err(bundles) => Err(bundles),
        Ok(left) => Ok((left_at_rest(recheck, left.0), left.1, effect)),
    }
}

// A task with other bundles.
fn with_bundles(task: Task, bundles: Seq<Bundle>) -> Task
    ensures { result ≡ with_bundles bundles task }
{
    let mut task = task;
    task.given.bundles = bundles;
    task
}

// Ends the run of a task by this walk, which stands at this number.
fn ended_at(
    alloc: Global,
    recheck: &Recheck,
    task: Task,
    pc: u32,
    walk: Walk,
) -> Result<Done, AllocFailed<Task>>
    requires { pc ≡ walk.cursor.pc }
    ensures ok { IfOk result (λ done. EndsAs walk.entry.doing.cells.under walk.entry.doing.cells.came task walk.entry.cursor walk.entry.next walk.entry.foot (doing_of walk.entry.doing) done) }
    ensures back { IfErr result (λ failed. failed.value ≡ with_bundles walk.entry.doing.cells.came task) }
{
    let Walk {
        cursor,
        doing,
        next,
        foot,
    } = walk;
    match end(alloc, recheck, task.mask, task.thread, task.child, doing) {
        Err(bundles) => {
            drop(next);
            Err(AllocFailed {
                value: with_bundles(task, bundles),
            })
        }
        Ok((bundles, old, effect)) => {
            let at = At {
                task: task.at.task,
                pc,
            };
            Ok(Done {
                task: with_bundles(task, bundles),
                old,
                effect,
                next,
                at,
                ctl: cursor.ctl,
                foot,
            })
        }
    }
}

// Ends the run of a task by this walk, which has the task's bundles with its cells at hand.
fn ended(
    alloc: Global,
    recheck: &Recheck,
    task: Task,
    walk: Walk,
) -> Result<Done, AllocFailed<Task>>
    ensures ok { IfOk result (λ done. EndsAs walk.entry.doing.cells.under walk.entry.doing.cells.came task walk.entry.cursor walk.entry.next walk.entry.foot (doing_of walk.entry.doing) done) }
    ensures back { IfErr result (λ failed. failed.value ≡ with_bundles walk.entry.doing.cells.came task) }
{
    match narrow(walk.cursor.pc) {
        Ok(pc) => ended_at(alloc, recheck, task, pc, walk),
        Err(_) => Err(AllocFailed {
            value: with_bundles(task, given_back(walk)),
        }),
    }
}

/// Runs a task, whose cells it changes in place. What comes next and where the thread then stands follow from the
/// task's beginning, place, control variables, thread and child; the effect is what its actions do on what was given,
/// damaged by its mask. An index fault and spent loop turns are values of what comes next. The error is that memory is
/// out, and has the task as it was.
pub fn run_task(alloc: Global, work: &Work, task: Task) -> Result<Done, AllocFailed<Task>>
    requires { Fits work.now task }
    ensures of_task { IfOk result (λ done. task_of work.now done ≡ task) }
    ensures run { IfOk result (λ done. IsRun work.now done) }
    ensures back { IfErr result (λ failed. failed.value ≡ task) }
{
    let mut steps = 0;
    run_counted(alloc, work, task, &mut steps)
}

/// Runs a task, as `run_task` does, and leaves in `steps` how many control steps its walks made together: how long it
/// took, by a measure that does not hang on the machine. No clause speaks of that number.
///
/// Where the work says so, the task is walked twice and the two walks are compared before anything is handed on; where
/// they differ, a third decides. That is redundant execution, in time and on one processor: Oh, Shirvani and McCluskey,
/// 'Error detection by duplicated instructions in super-scalar processors' (EDDI, 2002), and Reis, Chang, Vachharajani,
/// Rangan and August, 'SWIFT: software implemented fault tolerance' (2005) repeat each instruction; Reinhardt and
/// Mukherjee, 'Transient fault detection via simultaneous multithreading' (RMT, 2000) compare two threads at what leaves
/// them, as is done here at what leaves a subthread. A sum is then kept with each bundle and with the registers of each
/// thread that it leaves, and asked when they are lent again; those over the feeds are asked where a walk reads them.
pub fn run_counted(
    alloc: Global,
    work: &Work,
    task: Task,
    steps: &mut u64,
) -> Result<Done, AllocFailed<Task>>
    requires { Fits work.now task }
    ensures of_task { IfOk result (λ done. task_of work.now done ≡ task) }
    ensures run { IfOk result (λ done. IsRun work.now done) }
    ensures agreed { IfOk result (Agrees work.now task) }
    ensures back { IfErr result (λ failed. failed.value ≡ task) }
{
    let ground = ground_of(work, &task);
    let mut task = task;
    let bundles = mem::replace(&mut task.given.bundles, Seq::new(alloc));
    *steps = 0;
    match attempts(alloc, work, &task, &ground, bundles, steps) {
        Ok(walk) => ended(alloc, &work.recheck, task, walk),
        Err(bundles) => Err(AllocFailed {
            value: with_bundles(task, bundles),
        }),
    }
}
