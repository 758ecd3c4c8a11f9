// Whether a row fits the subthread that begins.

ghost use Rattle.std.specs.Prelude.{◌≡◌, ◌↔◌, ◌≤ℤ◌, ℤ, pos, map, length, All, IsTrue, Option, IfOk};
ghost use Rattle.std.specs.Bool.{Decides};
ghost use Rattle.std.specs.List.{Contains};
ghost use Rattle.std.specs.List.Sorted.{IsStrictlyIncreasing};
ghost use Rattle.std.specs.Ordering.{nat_cmp};
ghost use Rattle.std.specs.FinMap.{is_sorted};
ghost use Rattle.task_ast.specs.meaning.Names.{natural};
ghost use Rattle.task_ast.specs.meaning.Layout.{layout};
ghost use Rattle.task_ast.specs.meaning.Plain.{Subthread};
ghost use Rattle.task_ast.specs.Plain.{Plain};
ghost use Rattle.task_code.specs.Flat.{code_of};
ghost use Rattle.subthread.specs.Tasks.{program_in};
ghost use Rattle.retirement_log.specs.meaning.Rows.{Retirement};
ghost use Rattle.gp_resume.specs.meaning.Fitting.{StandsUnder, child_size, FitsIssue, least_bytes};
ghost use Rattle.gp_resume.specs.inner.Course.{IsSuited, Begins, IsBegun};
ghost use Rattle.gp_resume.specs.inner.RowsRead.{row_in, write_in};

use crate::beginning::registers;
use crate::course::{Begun, Course, ResumePlan};
use crate::row::LogRow;
use gp_base::{LockNo, Pos};
use record_store::Summed;
use std::alloc::{AllocError, Global};
use task_ast::SyncOp;
use task_code::Code;

// How many registers a subthread that begins so gives to a child.
fn registers_given(code: &Code, begins: &SyncOp) -> u32
    ensures { result ≡ child_size (code_of code.now).program begins.now }
{
    match begins {
        SyncOp::Fork { task, args: _ } => registers(code, *task),
        _ => 0,
    }
}

// Whether the lock is one of these, which rise.
fn is_held(held: &[LockNo], lock: LockNo) -> bool
    requires { IsStrictlyIncreasing held.now }
    ensures { IsTrue result ↔ Contains held.now lock }
{
    held.binary_search_by_key(&lock.0, |other| other.0).is_ok()
}

// Whether the number is that of a cell that stands under one of these locks, which rise.
fn stands_under(code: &Code, held: &[LockNo], cell: i64) -> bool
    requires { IsStrictlyIncreasing held.now }
    ensures { IsTrue result ↔ StandsUnder (layout (code_of code.now).program.heads).under held.now cell }
{
    code.facts();
    let Ok(cell) = usize::try_from(cell) else {
        return false;
    };
    match code.over().get(cell) {
        Some(lock) => is_held(held, *lock),
        None => false,
    }
}

// Whether each of the cells stands under one of these locks, which rise.
fn all_stand_under(code: &Code, held: &[LockNo], cells: &[(i64, i64)]) -> bool
    requires { IsStrictlyIncreasing held.now }
    ensures { IsTrue result ↔ All (λ (cell : ℤ × ℤ). StandsUnder (layout (code_of code.now).program.heads).under held.now cell.0) cells.now }
{
    for cell in cells {
        if !stands_under(code, held, cell.0) {
            return false;
        }
    }
    true
}

// A number, where a negative one counts as 0.
fn counted(number: i64) -> u64
    ensures { result ≡ natural number }
{
    u64::try_from(number).unwrap_or(0)
}

// Whether the cells rise.
fn rise(cells: &[(i64, i64)]) -> bool
    ensures { IsTrue result ↔ IsTrue (is_sorted nat_cmp (map write_in cells.now)) }
{
    for at in 1..cells.len() {
        if counted(cells[at].0) <= counted(cells[at - 1].0) {
            return false;
        }
    }
    true
}

// Whether a row has this position, and no fewer bytes than these.
fn fits_turn(position: Pos, least: i64, row: &LogRow) -> bool
    ensures { IsTrue result ↔ (row.now.position ≡ pos position) × (least ≤ℤ row.now.bytes) }
{
    row.position == i64::from(position.0) && least <= row.bytes
}

// Whether a row has as many registers as these, and as many of a child as a subthread gives that begins so.
fn fits_registers(code: &Code, begins: &SyncOp, regs: &Summed, row: &LogRow) -> bool
    ensures { IsTrue result ↔ (length row.now.regs ≡ length regs.now) × (length row.now.child ≡ child_size (code_of code.now).program begins.now) }
{
    let given = registers_given(code, begins) as usize;
    row.regs.len() == regs.len() && row.child.len() == given
}

// Whether the cells of a row rise and stand under these locks, which rise.
fn fits_cells(code: &Code, held: &[LockNo], cells: &[(i64, i64)]) -> bool
    requires { IsStrictlyIncreasing held.now }
    ensures { IsTrue result ↔ All (λ (cell : ℤ × ℤ). StandsUnder (layout (code_of code.now).program.heads).under held.now cell.0) cells.now × IsTrue (is_sorted nat_cmp (map write_in cells.now)) }
{
    all_stand_under(code, held, cells) && rise(cells)
}

/// Whether a row may be that of the subthread that begins, where the text had at least so many bytes before. The error
/// is that memory is out.
pub fn fits(
    alloc: Global,
    plan: &ResumePlan,
    course: &Course,
    begun: &Begun,
    least: i64,
    row: &LogRow,
) -> Result<bool, AllocError>
    requires suits { IsSuited plan.now }
    requires begun { IsBegun plan.now begun.now course.now }
    ensures { IfOk result (λ fits. (x : Plain) (s : Subthread) (y : Plain) (before : Option Retirement) → Begins plan.now x s y begun.now course.now → least ≡ least_bytes before
        → Decides fits (FitsIssue (program_in plan.now.work.now) x.table.issued x.state s before (row_in row.now))) }
{
    let code = &plan.work.code;
    if !fits_turn(begun.pos, least, row) {
        return Ok(false);
    }
    let (regs, _) = course.store.regs_of(alloc, begun.thread, None)?;
    if !fits_registers(code, &begun.begins.sync, &regs, row) {
        return Ok(false);
    }
    let held = begun.held.as_slice();
    Ok(fits_cells(code, held, row.cells.as_slice()))
}
