// A task that is walked twice, and the two walks compared.
ghost use Rattle.std.specs.Prelude.{◌≡◌, ◌⊎◌, length, map, All, IsTrue, IfOk, IfErr, IfSome};
ghost use Rattle.std.specs.Bool.{Decides};
ghost use Rattle.std.specs.List.Sorted.{IsStrictlyIncreasing};
ghost use Rattle.task_ast.specs.meaning.Under.{under_lock};
ghost use Rattle.record_store.specs.Lent.{lock_in};
ghost use Rattle.record_store.specs.declared.given.Bundle.{Bundle as BundleThere};
ghost use Rattle.task_ast.specs.SyncOps.{IsNumbered};
ghost use Rattle.subthread.specs.Tasks.{with_bundles, under_of};
ghost use Rattle.subthread.specs.meaning.Flaws.{Spares};
ghost use Rattle.subthread.specs.inner.Running.{IsTask, AreAtHand, Holds};
ghost use Rattle.subthread.specs.inner.Leaving.{IsGroundOf, actions_at};
ghost use Rattle.subthread.specs.inner.Hand.{written_to};
ghost use Rattle.subthread.specs.inner.Attempts.{cursor_at, IsWalk, IsSame, IsSameControl, IsSameData, made_of, made_in, Makes, IsAgreed};

use crate::cells::{Change, sum_of};
use crate::erring::erred;
use crate::ground::{Cursor, Doing, Ground};
use crate::run::{cells_of, walk};
use crate::{Disturbance, Recheck, Task, Work};
use gp_base::{Footprint, Lines, Loc, Nums, Seq};
use record_store::Bundle;
use std::alloc::{AllocError, Global};
use std::sync::atomic::Ordering;
use task_ast::{Next, SyncOp};

/// A walk that came to its next synchronisation: where it then stands, what it did, what comes next, and what it reads
/// and writes.
#[derive(Drop)]
pub struct Walk<'a> {
    pub cursor: Cursor,
    pub doing: Doing<'a>,
    pub next: Next,
    pub foot: Footprint,
}

/// What is kept of a walk whose cells were put back.
#[derive(Drop)]
pub struct Left {
    pub cursor: Cursor,
    pub regs: Nums,
    pub child: Nums,
    pub lines: Lines,
    pub steps: u64,
    pub changes: Vec<Change>,
    pub next: Next,
    pub foot: Footprint,
}

fn same_numbers(a: &[i64], b: &[i64]) -> bool
    ensures { Decides result (a.now ≡ b.now) }
{
    a == b
}

fn same_lines(a: &[Nums], b: &[Nums]) -> bool
    ensures { Decides result (a.now ≡ b.now) }
{
    if a.len() != b.len() {
        return false;
    }
    'comparing: for at in 0..a.len() {
        if !same_numbers(a[at].as_slice(), b[at].as_slice()) {
            return false;
        }
    }
    true
}

fn same_locs(a: &[Loc], b: &[Loc]) -> bool
    ensures { Decides result (a.now ≡ b.now) }
{
    a == b
}

fn same_changes(a: &[Change], b: &[Change]) -> bool
    ensures { Decides result (a.now ≡ b.now) }
{
    a == b
}

fn same_sync(a: &SyncOp, b: &SyncOp) -> bool
    ensures { Decides result (a.now ≡ b.now) }
{
    match (a, b) {
        (SyncOp::Start, SyncOp::Start) => true,
        (SyncOp::Lock(l), SyncOp::Lock(m)) => l.0 == m.0,
        (SyncOp::Unlock(l), SyncOp::Unlock(m)) => l.0 == m.0,
        (
            SyncOp::Fork { task, args },
            SyncOp::Fork {
                task: other,
                args: more,
            },
        ) => { *task == *other && same_numbers(args.as_slice(), more.as_slice()) }
        (SyncOp::Join(t), SyncOp::Join(u)) => *t == *u,
        (SyncOp::Barrier(x), SyncOp::Barrier(y)) => *x == *y,
        (SyncOp::Settle { reg, ctl }, SyncOp::Settle { reg: r, ctl: c }) => *reg == *r
            && *ctl == *c,
        (SyncOp::End, SyncOp::End) => true,
        (SyncOp::BadIndex, SyncOp::BadIndex) => true,
        (SyncOp::Spent, SyncOp::Spent) => true,
        _ => false,
    }
}

fn same_cursor(a: &Cursor, b: &Cursor) -> bool
    ensures { Decides result (a.now ≡ b.now) }
{
    a.pc == b.pc && same_numbers(a.ctl.as_slice(), b.ctl.as_slice())
}

fn same_next(a: &Next, b: &Next) -> bool
    ensures { Decides result (a.now ≡ b.now) }
{
    a.line == b.line && same_sync(&a.sync, &b.sync)
}

fn same_foot(a: &Footprint, b: &Footprint) -> bool
    ensures { Decides result (a.now ≡ b.now) }
{
    same_locs(a.reads.as_slice(), b.reads.as_slice())
        && same_locs(a.writes.as_slice(), b.writes.as_slice())
}

// Whether a walk came to where another one did, in as many steps, by the same locations.
fn same_control<'a>(walk: &Walk<'a>, left: &Left) -> bool
    ensures { Decides result (IsSameControl walk.now left.now) }
{
    walk.doing.steps == left.steps
        && same_cursor(&walk.cursor, &left.cursor)
        && same_next(&walk.next, &left.next)
        && same_foot(&walk.foot, &left.foot)
}

// Whether a walk left the same registers and lines as another one.
fn same_data<'a>(doing: &Doing<'a>, left: &Left) -> bool
    ensures { Decides result (IsSameData doing.now left.now) }
{
    same_numbers(doing.regs.as_slice(), left.regs.as_slice())
        && same_numbers(doing.child.as_slice(), left.child.as_slice())
        && same_lines(doing.lines.as_slice(), left.lines.as_slice())
}

// The bundles that came to be at hand, as they came.
fn taken_back<'a>(doing: Doing<'a>) -> Seq<Bundle>
    ensures { result ≡ doing.entry.cells.came }
{
    let Doing { cells, .. } = doing;
    cells.take_back()
}

// Where a task stands, and the registers that it was given, for a walk to change. The error is that memory is out.
fn copies(alloc: Global, task: &Task) -> Result<(Cursor, Nums), AllocError>
    ensures cursor { IfOk result (λ copies. copies.0 ≡ cursor_at task.now) }
    ensures regs { IfOk result (λ copies. copies.1 ≡ task.now.given.regs) }
{
    let ctl = task.ctl.copied(alloc)?;
    let regs = Seq::from_slice(alloc, task.given.regs.as_slice())?;
    let pc = task.at.pc as usize;
    Ok((Cursor { pc, ctl }, regs))
}

// One walk of a task from its beginning; its bundles are handed over, and its steps are added. The error is that memory is
// out, and has the bundles as they came.
fn attempt<'a>(
    alloc: Global,
    work: &'a Work,
    task: &Task,
    ground: &Ground,
    bundles: Seq<Bundle>,
    steps: &mut u64,
) -> Result<Walk<'a>, Seq<Bundle>>
    requires numbered { IsNumbered task.now.begins.sync }
    requires is { IsGroundOf work.now (with_bundles ground.now.bundles.value task.now) ground.now }
    requires task { IsTask ground.now }
    requires came { bundles ≡ ground.now.bundles.value }
    requires rising { IsStrictlyIncreasing (map lock_in ground.now.bundles.value) }
    requires sizes { All (λ (b : BundleThere). length b.cells ≡ length (under_lock (under_of work.now) b.lock)) ground.now.bundles.value }
    requires named { AreAtHand ground.now (actions_at work.now (with_bundles ground.now.bundles.value task.now) (cursor_at task.now)) }
    ensures walk { IfOk result (IsWalk work.now (with_bundles ground.now.bundles.value task.now) ground.now) }
    ensures back { IfErr result (λ back. back ≡ ground.now.bundles.value) }
{
    let Ok((mut cursor, regs)) = copies(alloc, task) else {
        return Err(bundles);
    };
    let mut doing = Doing {
        regs,
        child: Seq::new(alloc),
        cells: cells_of(alloc, work, bundles),
        lines: Seq::new(alloc),
        steps: 0,
    };
    match walk(alloc, work, task, ground, &mut cursor, &mut doing) {
        Ok((next, foot)) => {
            *steps = steps.saturating_add(doing.steps);
            Ok(Walk {
                cursor,
                doing,
                next,
                foot,
            })
        }
        Err(_) => Err(taken_back(doing)),
    }
}

// The walk of this number of a task, as `attempt`, on a machine with the flaws that the work tells of.
fn attempt_at<'a>(
    alloc: Global,
    work: &'a Work,
    task: &Task,
    ground: &Ground,
    bundles: Seq<Bundle>,
    steps: &mut u64,
    number: u32,
) -> Result<Walk<'a>, Seq<Bundle>>
    requires numbered { IsNumbered task.now.begins.sync }
    requires is { IsGroundOf work.now (with_bundles ground.now.bundles.value task.now) ground.now }
    requires task { IsTask ground.now }
    requires came { bundles ≡ ground.now.bundles.value }
    requires rising { IsStrictlyIncreasing (map lock_in ground.now.bundles.value) }
    requires sizes { All (λ (b : BundleThere). length b.cells ≡ length (under_lock (under_of work.now) b.lock)) ground.now.bundles.value }
    requires named { AreAtHand ground.now (actions_at work.now (with_bundles ground.now.bundles.value task.now) (cursor_at task.now)) }
    ensures makes { IfOk result (λ walk. Makes work.now (with_bundles ground.now.bundles.value task.now) number (made_of walk)) }
    ensures holds { IfOk result (λ walk. Holds ground.now walk.doing) }
    ensures back { IfErr result (λ back. back ≡ ground.now.bundles.value) }
{
    match work.recheck.flaw_of(task.pos, task.attempt, number) {
        Some(made) => erred(alloc, work, bundles, made),
        None => attempt(alloc, work, task, ground, bundles, steps),
    }
}

/// The bundles with which a walk began, as they came.
pub fn given_back<'a>(walk: Walk<'a>) -> Seq<Bundle>
    ensures { result ≡ walk.entry.doing.cells.came }
{
    let Walk { doing, next, .. } = walk;
    drop(next);
    taken_back(doing)
}

// Turns a bit of the summary of a walk, where a test says so: of what no walk hands on.
fn disturb(recheck: &Recheck, changes: &mut [Change])
    ensures { map written_to changes.new ≡ map written_to changes.old }
{
    if !changes.is_empty() && recheck.disturbs(Disturbance::OldValue) {
        changes[0].old ^= 1;
    }
}

// What is kept of a walk that made these changes, and the bundles as they came.
fn left_of<'a>(walk: Walk<'a>, changes: Vec<Change>) -> (Seq<Bundle>, Left)
    requires { map written_to changes.items ≡ walk.doing.cells.written }
    ensures came { result.0 ≡ walk.entry.doing.cells.came }
    ensures left { made_in result.1 ≡ made_of walk.entry }
{
    let Walk {
        cursor,
        doing,
        next,
        foot,
    } = walk;
    let Doing {
        regs,
        child,
        cells,
        lines,
        steps,
    } = doing;
    let left = Left {
        cursor,
        regs,
        child,
        lines,
        steps,
        changes,
        next,
        foot,
    };
    (cells.take_back(), left)
}

// What a walk of a task left, and the bundles as they came. The error is that memory is out, or that the cells are not
// those that came and that the walk wrote, which is noted; it has the bundles.
fn part<'a>(
    alloc: Global,
    work: &Work,
    task: &Task,
    sum: i64,
    walk: Walk<'a>,
) -> Result<(Seq<Bundle>, Left), Seq<Bundle>>
    ensures came { IfOk result (λ parts. parts.0 ≡ walk.entry.doing.cells.came) }
    ensures left { IfOk result (λ parts. made_in parts.1 ≡ made_of walk.entry) }
    ensures back { IfErr result (λ bundles. bundles ≡ walk.entry.doing.cells.came) }
{
    let Ok(mut changes) = walk.doing.cells.changes(alloc) else {
        return Err(given_back(walk));
    };
    disturb(&work.recheck, &mut changes);
    if walk.doing.cells.is_kept(sum, &changes) {
        Ok(left_of(walk, changes))
    } else {
        work.recheck.note(task.pos);
        work.recheck.note_disagreed(task.pos);
        Err(given_back(walk))
    }
}

// Whether a walk, which made these changes, left what another one did.
fn is_like_by<'a>(changes: &[Change], walk: &Walk<'a>, left: &Left) -> bool
    ensures { Decides result (IsSame changes.now walk.now left.now) }
{
    same_control(walk, left) && same_data(&walk.doing, left) && same_changes(changes, &left.changes)
}

// Whether a walk left what another one did, and no other cells. The error is that memory is out.
fn is_like<'a>(
    alloc: Global,
    recheck: &Recheck,
    sum: i64,
    walk: &Walk<'a>,
    left: &Left,
) -> Result<bool, AllocError>
    ensures { IfOk result (λ same. IsTrue same → made_of walk.now ≡ made_in left.now) }
{
    if recheck.disturbs(Disturbance::Refusal) {
        return Err(AllocError);
    }
    let changes = walk.doing.cells.changes(alloc)?;
    Ok(is_like_by(&changes, walk, left) && walk.doing.cells.is_kept(sum, &changes))
}

// Whether a walk left what one of these two did. The error is that memory is out.
fn is_like_either<'a>(
    alloc: Global,
    recheck: &Recheck,
    sum: i64,
    walk: &Walk<'a>,
    one: &Left,
    two: &Left,
) -> Result<bool, AllocError>
    ensures { IfOk result (λ same. IsTrue same → (made_of walk.now ≡ made_in one.now) ⊎ (made_of walk.now ≡ made_in two.now)) }
{
    Ok(is_like(alloc, recheck, sum, walk, one)? || is_like(alloc, recheck, sum, walk, two)?)
}

// The third walk of a task, whose first two left these two and were not alike: it must be like one of them. The error is
// that memory is out, or that it is like neither, which is noted; it has the bundles as they came.
fn agreed<'a>(
    alloc: Global,
    work: &Work,
    task: &Task,
    sum: i64,
    third: Walk<'a>,
    one: &Left,
    two: &Left,
) -> Result<Walk<'a>, Seq<Bundle>>
    ensures walk { IfOk result (λ walk. walk ≡ third.entry) }
    ensures like { IfOk result (λ walk. (made_of walk ≡ made_in one.now) ⊎ (made_of walk ≡ made_in two.now)) }
    ensures back { IfErr result (λ bundles. bundles ≡ third.entry.doing.cells.came) }
{
    match is_like_either(alloc, &work.recheck, sum, &third, one, two) {
        Ok(true) => Ok(third),
        Ok(false) => {
            work.recheck.note_disagreed(task.pos);
            Err(given_back(third))
        }
        Err(_) => Err(given_back(third)),
    }
}

// A sum over the bundles of a task, where these and its registers are as they were left; where they are not, that is
// noted.
fn sum_as_left(recheck: &Recheck, task: &Task, bundles: &[Bundle]) -> Option<i64> {
    let sum = if task.given.regs.is_whole() {
        sum_of(bundles)
    } else {
        None
    };
    if sum.is_none() {
        recheck.note_damaged(task.pos);
    }
    sum
}

// The third walk of a task, whose first left this and whose second was not like it: it must be like one of them. The error
// is as that of `compared`.
fn decided<'a>(
    alloc: Global,
    work: &'a Work,
    task: &Task,
    ground: &Ground,
    sum: i64,
    second: Walk<'a>,
    one: &Left,
    steps: &mut u64,
) -> Result<Walk<'a>, Seq<Bundle>>
    requires numbered { IsNumbered task.now.begins.sync }
    requires is { IsGroundOf work.now (with_bundles ground.now.bundles.value task.now) ground.now }
    requires task { IsTask ground.now }
    requires holds { Holds ground.now second.doing }
    requires rising { IsStrictlyIncreasing (map lock_in ground.now.bundles.value) }
    requires sizes { All (λ (b : BundleThere). length b.cells ≡ length (under_lock (under_of work.now) b.lock)) ground.now.bundles.value }
    requires named { AreAtHand ground.now (actions_at work.now (with_bundles ground.now.bundles.value task.now) (cursor_at task.now)) }
    requires first { Makes work.now (with_bundles ground.now.bundles.value task.now) 0 (made_in one.now) }
    requires second { Makes work.now (with_bundles ground.now.bundles.value task.now) 1 (made_of second) }
    ensures agreed { IfOk result (λ walk. IsAgreed work.now (with_bundles ground.now.bundles.value task.now) (made_of walk)) }
    ensures holds { IfOk result (λ walk. Holds ground.now walk.doing) }
    ensures back { IfErr result (λ back. back ≡ ground.now.bundles.value) }
{
    let (bundles, two) = part(alloc, work, task, sum, second)?;
    match attempt_at(alloc, work, task, ground, bundles, steps, 2) {
        Ok(third) => {
            let walk = agreed(alloc, work, task, sum, third, one, &two);
            drop(two);
            walk
        }
        Err(bundles) => {
            drop(two);
            Err(bundles)
        }
    }
}

// The second walk of a task, whose first left this: where the two differ, a third must be like one of them. The error is
// as that of `compared`.
fn again<'a>(
    alloc: Global,
    work: &'a Work,
    task: &Task,
    ground: &Ground,
    bundles: Seq<Bundle>,
    sum: i64,
    one: &Left,
    steps: &mut u64,
) -> Result<Walk<'a>, Seq<Bundle>>
    requires numbered { IsNumbered task.now.begins.sync }
    requires is { IsGroundOf work.now (with_bundles ground.now.bundles.value task.now) ground.now }
    requires task { IsTask ground.now }
    requires came { bundles ≡ ground.now.bundles.value }
    requires rising { IsStrictlyIncreasing (map lock_in ground.now.bundles.value) }
    requires sizes { All (λ (b : BundleThere). length b.cells ≡ length (under_lock (under_of work.now) b.lock)) ground.now.bundles.value }
    requires named { AreAtHand ground.now (actions_at work.now (with_bundles ground.now.bundles.value task.now) (cursor_at task.now)) }
    requires first { Makes work.now (with_bundles ground.now.bundles.value task.now) 0 (made_in one.now) }
    ensures agreed { IfOk result (λ walk. IsAgreed work.now (with_bundles ground.now.bundles.value task.now) (made_of walk)) }
    ensures holds { IfOk result (λ walk. Holds ground.now walk.doing) }
    ensures back { IfErr result (λ back. back ≡ ground.now.bundles.value) }
{
    let second = attempt_at(alloc, work, task, ground, bundles, steps, 1)?;
    match is_like(alloc, &work.recheck, sum, &second, one) {
        Ok(true) => Ok(second),
        Ok(false) => {
            work.recheck.note(task.pos);
            decided(alloc, work, task, ground, sum, second, one, steps)
        }
        Err(_) => Err(given_back(second)),
    }
}

// A walk of a task, as `attempt`, made twice: where the two differ, a third must be like one of them. The error is that
// memory is out, or that it is like neither, or that the cells that came could not be had back, or that what came is not
// as it was left; it has the bundles.
fn compared<'a>(
    alloc: Global,
    work: &'a Work,
    task: &Task,
    ground: &Ground,
    bundles: Seq<Bundle>,
    steps: &mut u64,
) -> Result<Walk<'a>, Seq<Bundle>>
    requires numbered { IsNumbered task.now.begins.sync }
    requires is { IsGroundOf work.now (with_bundles ground.now.bundles.value task.now) ground.now }
    requires task { IsTask ground.now }
    requires came { bundles ≡ ground.now.bundles.value }
    requires rising { IsStrictlyIncreasing (map lock_in ground.now.bundles.value) }
    requires sizes { All (λ (b : BundleThere). length b.cells ≡ length (under_lock (under_of work.now) b.lock)) ground.now.bundles.value }
    requires named { AreAtHand ground.now (actions_at work.now (with_bundles ground.now.bundles.value task.now) (cursor_at task.now)) }
    ensures agreed { IfOk result (λ walk. IsAgreed work.now (with_bundles ground.now.bundles.value task.now) (made_of walk)) }
    ensures holds { IfOk result (λ walk. Holds ground.now walk.doing) }
    ensures back { IfErr result (λ back. back ≡ ground.now.bundles.value) }
{
    let Some(sum) = sum_as_left(&work.recheck, task, bundles.as_slice()) else {
        return Err(bundles);
    };
    let first = attempt_at(alloc, work, task, ground, bundles, steps, 0)?;
    let (bundles, one) = part(alloc, work, task, sum, first)?;
    let walk = again(alloc, work, task, ground, bundles, sum, &one, steps);
    drop(one);
    walk
}

// A walk of a task, where all that its walks read of feeds was as it came; where it was not, that is noted. The error has
// the bundles as they came.
fn fed<'a>(
    recheck: &Recheck,
    task: &Task,
    ground: &Ground,
    walk: Walk<'a>,
) -> Result<Walk<'a>, Seq<Bundle>>
    ensures walk { IfOk result (λ fed. fed ≡ walk.entry) }
    ensures back { IfErr result (λ bundles. bundles ≡ walk.entry.doing.cells.came) }
{
    if ground.is_misfed.load(Ordering::SeqCst) {
        recheck.note_damaged(task.pos);
        return Err(given_back(walk));
    }
    Ok(walk)
}

/// A walk of a task from its beginning, made once, or twice and compared, as the work's recheck says; its bundles are
/// handed over, and the steps of all walks are added. The error is that memory is out, or that walks could not be agreed
/// on, or that what came, or what they read of feeds, is not as it was left, which the recheck keeps; it has the bundles as
/// they came.
pub fn attempts<'a>(
    alloc: Global,
    work: &'a Work,
    task: &Task,
    ground: &Ground,
    bundles: Seq<Bundle>,
    steps: &mut u64,
) -> Result<Walk<'a>, Seq<Bundle>>
    requires numbered { IsNumbered task.now.begins.sync }
    requires is { IsGroundOf work.now (with_bundles ground.now.bundles.value task.now) ground.now }
    requires task { IsTask ground.now }
    requires came { bundles ≡ ground.now.bundles.value }
    requires rising { IsStrictlyIncreasing (map lock_in ground.now.bundles.value) }
    requires sizes { All (λ (b : BundleThere). length b.cells ≡ length (under_lock (under_of work.now) b.lock)) ground.now.bundles.value }
    requires named { AreAtHand ground.now (actions_at work.now (with_bundles ground.now.bundles.value task.now) (cursor_at task.now)) }
    ensures agreed { IfOk result (λ walk. IsAgreed work.now (with_bundles ground.now.bundles.value task.now) (made_of walk)) }
    ensures walk { IfOk result (λ walk. IfSome work.now.recheck Spares → IsWalk work.now (with_bundles ground.now.bundles.value task.now) ground.now walk) }
    ensures back { IfErr result (λ back. back ≡ ground.now.bundles.value) }
{
    if work.recheck.is_on() {
        match compared(alloc, work, task, ground, bundles, steps) {
            Ok(walk) => fed(&work.recheck, task, ground, walk),
            Err(bundles) => Err(bundles),
        }
    } else {
        attempt(alloc, work, task, ground, bundles, steps)
    }
}
