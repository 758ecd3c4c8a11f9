// The walk of a run over its task's instructions.
ghost use Rattle.std.specs.Prelude.{◌≡◌, is_some, map, option_map, slice_get, IfOk};
ghost use Rattle.task_ast.specs.meaning.Control.{all_of};
ghost use Rattle.task_code.specs.Instructions.{Assign, Unless, Again, Lock, Unlock, Fork};
ghost use Rattle.task_code.specs.Reading.{fork_arguments, gift_action, step_does, step_instr};
ghost use Rattle.task_code.specs.View.{plain_calc, plain_does, plain_forking, plain_gifts, plain_instrs};
ghost use Rattle.subthread.specs.inner.Moving.{Moved};
ghost use Rattle.subthread.specs.inner.Running.{env_in, place_in, did, body_in, Holds, IsTask, StaysInside, StepIsAtHand, AreAtHand, Stepped, Ran};

use crate::deeds::{fits, perform};
use crate::ground::{Cursor, Doing, Ground, Went};
use crate::names::Names;
use crate::notes::note;
use crate::numbers::{is_zero, narrow, set_number};
use crate::values::{cell_at, control_value, control_values, has_value};
use gp_base::{LockNo, Nums};
use std::alloc::{AllocError, Global};
use task_ast::{Next, SyncOp};
use task_code::{Calc, CellIndex, CellRange, Does, Forking};

/// A stop before a synchronisation.
pub fn stop(sync: SyncOp, line: u32) -> Went
    ensures { result ≡ Went.Stopped (record { sync = sync; line = line }) }
{
    Went::Stopped(Next { sync, line })
}

fn fault(line: u32) -> Went
    ensures { result ≡ Went.Stopped (record { sync = SyncOp.BadIndex; line = line }) }
{
    stop(SyncOp::BadIndex, line)
}

/// Whether each data argument of a fork has a value.
pub fn gifts_fit(gifts: &[(usize, Calc)], ground: &Ground, ctl: &[i64]) -> bool
    ensures { result ≡ is_some (all_of (map (λ g. gift_action g (env_in ground.now ctl.now)) (plain_gifts gifts.now))) }
{
    for gift in gifts {
        if !has_value(&gift.1, ground, ctl) {
            return false;
        }
    }
    true
}

/// The values of a fork's control arguments, or `None` where an argument has no value.
pub fn fork_values(
    alloc: Global,
    forking: &Forking,
    ground: &Ground,
    ctl: &[i64],
) -> Result<Option<Nums>, AllocError>
    ensures { IfOk result (λ values. values ≡ option_map (λ a. a.0) (fork_arguments (plain_forking forking.now) (env_in ground.now ctl.now))) }
{
    let Some(values) = control_values(alloc, forking.controls.as_slice(), ground, ctl)? else {
        return Ok(None);
    };
    if gifts_fit(forking.gifts.as_slice(), ground, ctl) {
        Ok(Some(values))
    } else {
        Ok(None)
    }
}

// A control variable takes a value.
fn assigned(k: usize, c: &Calc, line: u32, ground: &Ground, cursor: &mut Cursor) -> Went
    requires { StaysInside (Assign k (plain_calc c.now)) cursor.old.pc }
    ensures { Moved (step_does ground.now.feeds.now line (Assign k (plain_calc c.now)) (place_in ground.now cursor.old)) result (place_in ground.now cursor.old) (place_in ground.now cursor.new) }
{
    match control_value(c, ground, cursor.ctl.as_slice()) {
        None => fault(line),
        Some(v) => {
            set_number(&mut cursor.ctl, k, v);
            cursor.pc += 1;
            Went::On
        }
    }
}

// A jump over so many instructions where a value is 0.
fn jumped(c: &Calc, n: usize, line: u32, ground: &Ground, cursor: &mut Cursor) -> Went
    requires { StaysInside (Unless (plain_calc c.now) n) cursor.old.pc }
    ensures { Moved (step_does ground.now.feeds.now line (Unless (plain_calc c.now) n) (place_in ground.now cursor.old)) result (place_in ground.now cursor.old) (place_in ground.now cursor.new) }
{
    match control_value(c, ground, cursor.ctl.as_slice()) {
        None => fault(line),
        Some(v) => {
            if is_zero(v) {
                cursor.pc = cursor.pc + 1 + n;
                Went::On
            } else {
                cursor.pc += 1;
                Went::On
            }
        }
    }
}

// A loop turn, which begins so many instructions before, unless a value is 0.
fn turned(c: &Calc, n: usize, line: u32, ground: &Ground, cursor: &mut Cursor) -> Went
    requires { StaysInside (Again (plain_calc c.now) n) cursor.old.pc }
    ensures { Moved (step_does ground.now.feeds.now line (Again (plain_calc c.now) n) (place_in ground.now cursor.old)) result (place_in ground.now cursor.old) (place_in ground.now cursor.new) }
{
    match control_value(c, ground, cursor.ctl.as_slice()) {
        None => fault(line),
        Some(v) => {
            if is_zero(v) {
                cursor.pc += 1;
                Went::On
            } else {
                Went::Turned(cursor.pc - n)
            }
        }
    }
}

// A stop before a lock is taken.
fn locked(
    cells: CellRange,
    i: CellIndex,
    line: u32,
    ground: &Ground,
    cursor: &Cursor,
) -> Result<Went, AllocError>
    ensures { IfOk result (λ went. Moved (step_does ground.now.feeds.now line (Lock cells i) (place_in ground.now cursor.now)) went (place_in ground.now cursor.now) (place_in ground.now cursor.now)) }
{
    match cell_at(cells, i, cursor.ctl.as_slice()) {
        None => Ok(fault(line)),
        Some(lock) => Ok(stop(SyncOp::Lock(LockNo(narrow(lock)?)), line)),
    }
}

// A stop before a lock is given back.
fn unlocked(
    cells: CellRange,
    i: CellIndex,
    line: u32,
    ground: &Ground,
    cursor: &Cursor,
) -> Result<Went, AllocError>
    ensures { IfOk result (λ went. Moved (step_does ground.now.feeds.now line (Unlock cells i) (place_in ground.now cursor.now)) went (place_in ground.now cursor.now) (place_in ground.now cursor.now)) }
{
    match cell_at(cells, i, cursor.ctl.as_slice()) {
        None => Ok(fault(line)),
        Some(lock) => Ok(stop(SyncOp::Unlock(LockNo(narrow(lock)?)), line)),
    }
}

// A stop before a fork.
fn forked(
    alloc: Global,
    forking: &Forking,
    line: u32,
    ground: &Ground,
    cursor: &Cursor,
) -> Result<Went, AllocError>
    ensures { IfOk result (λ went. Moved (step_does ground.now.feeds.now line (Fork (plain_forking forking.now)) (place_in ground.now cursor.now)) went (place_in ground.now cursor.now) (place_in ground.now cursor.now)) }
{
    match fork_values(alloc, forking, ground, cursor.ctl.as_slice())? {
        None => Ok(fault(line)),
        Some(args) => Ok(stop(
            SyncOp::Fork {
                task: forking.task,
                args,
            },
            line,
        )),
    }
}

/// The step at an instruction, without what a data statement does. A loop turn is only found.
#[inline(always)]
pub fn control_at(
    alloc: Global,
    does: &Does,
    line: u32,
    ground: &Ground,
    cursor: &mut Cursor,
) -> Result<Went, AllocError>
    requires { StaysInside (plain_does does.now) cursor.old.pc }
    ensures { IfOk result (λ went. Moved (step_does ground.now.feeds.now line (plain_does does.now) (place_in ground.now cursor.old)) went (place_in ground.now cursor.old) (place_in ground.now cursor.new)) }
{
    match does {
        Does::Assign(k, c) => Ok(assigned(*k, c, line, ground, cursor)),
        Does::GoOn(n) => {
            cursor.pc = cursor.pc + 1 + *n;
            Ok(Went::On)
        }
        Does::Unless(c, n) => Ok(jumped(c, *n, line, ground, cursor)),
        Does::Again(c, n) => Ok(turned(c, *n, line, ground, cursor)),
        Does::Lock(cells, i) => locked(*cells, *i, line, ground, cursor),
        Does::Unlock(cells, i) => unlocked(*cells, *i, line, ground, cursor),
        Does::Fork(forking) => forked(alloc, forking, line, ground, cursor),
        Does::Join(c, _) => match control_value(c, ground, cursor.ctl.as_slice()) {
            None => Ok(fault(line)),
            Some(thread) => Ok(stop(SyncOp::Join(thread), line)),
        },
        Does::Barrier(b) => Ok(stop(SyncOp::Barrier(*b), line)),
        Does::Settle(reg, ctl) => Ok(stop(
            SyncOp::Settle {
                reg: *reg,
                ctl: *ctl,
            },
            line,
        )),
        Does::Do(deed) => {
            if fits(deed, ground, cursor.ctl.as_slice()) {
                cursor.pc += 1;
                Ok(Went::On)
            } else {
                Ok(fault(line))
            }
        }
    }
}

// The step at an instruction. A loop turn is only found.
fn step_at(
    alloc: Global,
    does: &Does,
    line: u32,
    ground: &Ground,
    cursor: &mut Cursor,
    doing: &mut Doing,
    names: &mut Names,
) -> Result<Went, AllocError>
    requires cells { Holds ground.now doing.old }
    requires inside { StaysInside (plain_does does.now) cursor.old.pc }
    requires named { StepIsAtHand ground.now (step_does ground.now.feeds.now line (plain_does does.now) (place_in ground.now cursor.old)) }
    ensures steps { IfOk result (λ went. Stepped ground.now (step_does ground.now.feeds.now line (plain_does does.now) (place_in ground.now cursor.old)) went (place_in ground.now cursor.old) (place_in ground.now cursor.new) (did doing.old names.old) (did doing.new names.new)) }
    ensures holds { Holds ground.now doing.new }
{
    match does {
        Does::Do(deed) => {
            if fits(deed, ground, cursor.ctl.as_slice()) {
                note(deed, ground, cursor.ctl.as_slice(), names)?;
                perform(alloc, deed, ground, cursor.ctl.as_slice(), doing)?;
                cursor.pc += 1;
                Ok(Went::On)
            } else {
                Ok(fault(line))
            }
        }
        _ => control_at(alloc, does, line, ground, cursor),
    }
}

// One control step.
fn step(
    alloc: Global,
    ground: &Ground,
    cursor: &mut Cursor,
    doing: &mut Doing,
    names: &mut Names,
) -> Result<Went, AllocError>
    requires cells { Holds ground.now doing.old }
    requires task { IsTask ground.now }
    requires named { StepIsAtHand ground.now (step_instr ground.now.feeds.now (slice_get (plain_instrs ground.now.instrs.now) cursor.old.pc) (place_in ground.now cursor.old)) }
    ensures steps { IfOk result (λ went. Stepped ground.now (step_instr ground.now.feeds.now (slice_get (plain_instrs ground.now.instrs.now) cursor.old.pc) (place_in ground.now cursor.old)) went (place_in ground.now cursor.old) (place_in ground.now cursor.new) (did doing.old names.old) (did doing.new names.new)) }
    ensures holds { Holds ground.now doing.new }
{
    doing.steps = doing.steps.saturating_add(1);
    if cursor.pc < ground.instrs.len() {
        let instr = &ground.instrs[cursor.pc];
        step_at(alloc, &instr.does, instr.line, ground, cursor, doing, names)
    } else {
        Ok(stop(SyncOp::End, 0))
    }
}

/// Runs a body from where the run stands, with at most so many loop turns.
pub fn run_body(
    alloc: Global,
    ground: &Ground,
    turns: u64,
    cursor: &mut Cursor,
    doing: &mut Doing,
    names: &mut Names,
) -> Result<Next, AllocError>
    requires cells { Holds ground.now doing.old }
    requires task { IsTask ground.now }
    requires named { AreAtHand ground.now (body_in ground.now turns (place_in ground.now cursor.old)).actions }
    ensures ran { IfOk result (λ next. Ran ground.now (body_in ground.now turns (place_in ground.now cursor.old)) next (place_in ground.now cursor.new) (did doing.old names.old) (did doing.new names.new)) }
    ensures holds { Holds ground.now doing.new }
{
    let mut left = turns;
    loop {
        match step(alloc, ground, cursor, doing, names)? {
            Went::On => {}
            Went::Turned(pc) => {
                if left == 0 {
                    return Ok(Next {
                        sync: SyncOp::Spent,
                        line: 0,
                    });
                }
                left -= 1;
                cursor.pc = pc;
            }
            Went::Stopped(next) => return Ok(next),
        }
    }
}
