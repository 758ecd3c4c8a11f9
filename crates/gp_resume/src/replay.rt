// A subthread that is not run, since a row says what it left.

ghost use Rattle.std.specs.Prelude.{◌≡◌, ◌<◌, ℤ, [], length, map, option_map, All, IsTrue, Option, IfOk, OnOk};
ghost use Rattle.std.specs.List.Sorted.{IsStrictlyIncreasing};
ghost use Rattle.std.specs.Ordering.{nat_cmp};
ghost use Rattle.std.specs.FinMap.{is_sorted};
ghost use Rattle.task_ast.specs.meaning.Effect.{after};
ghost use Rattle.task_ast.specs.meaning.Plain.{Subthread};
ghost use Rattle.task_ast.specs.Plain.{Plain};
ghost use Rattle.record_store.specs.Stored.{state_of, SameShape, FitsChild, IsAtHome};
ghost use Rattle.subthread.specs.Tasks.{program_in, under_of, body_from};
ghost use Rattle.retirement_log.specs.meaning.Rows.{Retirement};
ghost use Rattle.gp_resume.specs.meaning.Fitting.{StandsUnder, left_by, FitsIssue};
ghost use Rattle.gp_resume.specs.inner.Course.{IsSuited, Stands, Begins};
ghost use Rattle.gp_resume.specs.inner.Replayed.{lent_for, IsSetUnder, FitsBegun};
ghost use Rattle.gp_resume.specs.inner.RowsRead.{row_in, write_in};

use crate::course::{Begun, Course, ResumePlan};
use crate::row::LogRow;
use gp_base::{At, LockNo, Nums, RecNo, Seq, ThreadNo};
use record_store::{Bundle, Effect, Store, Summed};
use std::alloc::{AllocError, Global};
use subthread::{Work, control_of, room_for, set_cells};
use task_ast::Next;

// The cells of a row, each with its value. A number that is too large for a cell is taken as a want of memory; a row
// that fits has none.
fn writes_of(alloc: Global, cells: &Seq<(i64, i64)>) -> Result<Vec<(RecNo, i64)>, AllocError>
    ensures { IfOk result (λ writes. writes.items ≡ map write_in cells.now) }
{
    let mut writes = Vec::new(alloc);
    for cell in cells.as_slice() {
        let Ok(number) = u32::try_from(cell.0) else {
            return Err(AllocError);
        };
        writes.push((RecNo(number), cell.1))?;
    }
    Ok(writes)
}

// The cells under these locks, which rise and are at home, go out with the values that a row says. Gives what comes
// home: the cells, and the values that were overwritten. The error is that memory is out.
fn lend_set(
    alloc: Global,
    work: &Work,
    store: &mut Store,
    held: &Seq<LockNo>,
    cells: &Seq<(i64, i64)>,
) -> Result<(Seq<Bundle>, Seq<(RecNo, i64)>), AllocError>
    requires layout { store.old.under ≡ under_of work.now }
    requires home { All (IsAtHome store.old) held.now }
    requires rising { IsStrictlyIncreasing held.now }
    requires under { All (λ (cell : ℤ × ℤ). StandsUnder (under_of work.now) held.now cell.0) cells.now }
    requires cells { IsTrue (is_sorted nat_cmp (map write_in cells.now)) }
    ensures store { OnOk result (store.new ≡ lent_for held.now store.old) }
    ensures set { IfOk result (λ left. IsSetUnder store.old held.now cells.now left.0 left.1) }
{
    let writes = writes_of(alloc, cells)?;
    let mut room = room_for(alloc, held.len())?;
    store.lend(held, &mut room);
    set_cells(alloc, work, room.into_seq(), &writes)
}

// What a row says that a subthread left beside cells.
fn effect_of(
    alloc: Global,
    thread: ThreadNo,
    child: Option<ThreadNo>,
    regs: Nums,
    given: Nums,
) -> Effect
    ensures { result ≡ record { thread = thread; regs = regs; child = option_map (λ c. (c, given)) child; prints = [] } }
{
    let given = Summed::plain(given);
    Effect {
        thread,
        regs: Summed::plain(regs),
        child: child.map(|child| (child, given)),
        prints: Seq::new(alloc),
    }
}

// Leaves what a row says in the place of the subthread that begins, whose locks rise and are at home. The error is that
// memory is out.
fn leave_row(
    alloc: Global,
    work: &Work,
    store: &mut Store,
    begun: &Begun,
    row: LogRow,
) -> Result<(), AllocError>
    requires layout { store.old.under ≡ under_of work.now }
    requires home { All (IsAtHome store.old) begun.now.held }
    requires rising { IsStrictlyIncreasing begun.now.held }
    requires under { All (λ (cell : ℤ × ℤ). StandsUnder (under_of work.now) begun.now.held cell.0) row.cells }
    requires cells { IsTrue (is_sorted nat_cmp (map write_in row.cells)) }
    requires thread { begun.now.thread < length store.old.threads }
    requires child { FitsChild (length store.old.threads) begun.now.thread (option_map (λ c. (c, row.child)) begun.now.child) }
    ensures state { OnOk result (state_of store.new ≡ after (left_by (row_in row) begun.now.thread begun.now.child) (state_of store.old)) }
    ensures shape { OnOk result (SameShape store.old store.new) }
    ensures away { OnOk result (store.new.away ≡ store.old.away) }
{
    let LogRow {
        position: _,
        bytes: _,
        regs,
        child,
        cells,
    } = row;
    let (bundles, old) = lend_set(alloc, work, store, &begun.held, &cells)?;
    let effect = effect_of(alloc, begun.thread, begun.child, regs, child);
    store.accept_home(bundles, old, effect);
    Ok(())
}

// The control part of the subthread that begins: what comes next, and where its thread then stands, with its control
// variables. The error is that memory is out.
fn control(alloc: Global, work: &Work, begun: &Begun) -> Result<(Next, At, Nums), AllocError>
    ensures next { IfOk result (λ left. left.0 ≡ (body_from work.now begun.now.begins.sync begun.now.child (record { at = begun.now.spot.at; ctl = begun.now.spot.ctl; me = begun.now.thread })).next) }
    ensures place { IfOk result (λ left. record { at = left.1; ctl = left.2; me = begun.now.thread } ≡ (body_from work.now begun.now.begins.sync begun.now.child (record { at = begun.now.spot.at; ctl = begun.now.spot.ctl; me = begun.now.thread })).at) }
{
    let spot = &begun.spot;
    control_of(
        alloc,
        work,
        &begun.begins,
        begun.thread,
        begun.child,
        spot.at,
        &spot.ctl,
    )
}

/// Leaves what a row that fits says in the place of the subthread that begins, whose control is walked without its
/// data. The error is that memory is out; nothing is said then of the course.
pub fn replay(
    alloc: Global,
    plan: &ResumePlan,
    course: &mut Course,
    begun: Begun,
    row: LogRow,
) -> Result<(), AllocError>
    requires suits { IsSuited plan.now }
    requires fits { FitsBegun plan.now begun course.old (row_in row) }
    ensures { OnOk result ((x : Plain) (s : Subthread) (y : Plain) (before : Option Retirement) → Begins plan.now x s y begun course.old → FitsIssue (program_in plan.now.work.now) x.table.issued x.state s before (row_in row)
        → Stands plan.now (record y { state = after (left_by (row_in row) s.thread s.child) x.state }) course.new) }
{
    let (next, at, ctl) = control(alloc, plan.work, &begun)?;
    leave_row(alloc, plan.work, &mut course.store, &begun, row)?;
    course.leave(begun.thread, next, at, ctl);
    Ok(())
}
