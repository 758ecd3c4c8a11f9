// The control part of a run, without its data.
ghost use Rattle.std.specs.Prelude.{◌≡◌, slice_get, IfOk};
ghost use Rattle.task_code.specs.Reading.{step_instr};
ghost use Rattle.task_code.specs.View.{plain_instrs};
ghost use Rattle.subthread.specs.Tasks.{body_from};
ghost use Rattle.subthread.specs.inner.Moving.{Moved, Led, IsControlGround};
ghost use Rattle.subthread.specs.inner.Running.{body_in, place_in, IsTask};

use crate::Work;
use crate::begins::begin_control;
use crate::ground::{Cursor, Ground, Went};
use crate::numbers::narrow;
use crate::walk::{control_at, stop};
use gp_base::{At, Nums, Seq, ThreadNo};
use std::alloc::{AllocError, Global};
use std::snapshot::Snapshot;
use std::sync::atomic::AtomicBool;
use task_ast::{Next, SyncOp};

// What the control of a thread in a task reads. No cells are at hand.
fn control_ground<'a>(alloc: Global, work: &'a Work, task: u32, thread: ThreadNo) -> Ground<'a>
    ensures is { IsControlGround work.now task thread result }
    ensures task { IsTask result }
{
    work.code.facts();
    Ground {
        code: &work.code,
        task,
        instrs: work.code.instrs(task),
        feeds: work.feeds.as_slice(),
        recheck: &work.recheck,
        under: &[],
        bundles: Snapshot::of(&Seq::new(alloc)),
        joined: 0,
        me: thread,
        is_misfed: AtomicBool::new(false),
    }
}

// One control step, without what a data statement does.
fn control_step(alloc: Global, ground: &Ground, cursor: &mut Cursor) -> Result<Went, AllocError>
    requires { IsTask ground.now }
    ensures { IfOk result (λ went. Moved (step_instr ground.now.feeds.now (slice_get (plain_instrs ground.now.instrs.now) cursor.old.pc) (place_in ground.now cursor.old)) went (place_in ground.now cursor.old) (place_in ground.now cursor.new)) }
{
    if cursor.pc < ground.instrs.len() {
        let instr = &ground.instrs[cursor.pc];
        control_at(alloc, &instr.does, instr.line, ground, cursor)
    } else {
        Ok(stop(SyncOp::End, 0))
    }
}

// Walks through a body from where the run stands, with at most so many loop turns.
fn control_body(
    alloc: Global,
    ground: &Ground,
    turns: u64,
    cursor: &mut Cursor,
) -> Result<Next, AllocError>
    requires { IsTask ground.now }
    ensures { IfOk result (λ next. Led (body_in ground.now turns (place_in ground.now cursor.old)) next (place_in ground.now cursor.new)) }
{
    let mut left = turns;
    loop {
        match control_step(alloc, ground, cursor)? {
            Went::On => {}
            Went::Turned(pc) => {
                if left == 0 {
                    return Ok(Next {
                        sync: SyncOp::Spent,
                        line: 0,
                    });
                }
                left -= 1;
                cursor.pc = pc;
            }
            Went::Stopped(next) => return Ok(next),
        }
    }
}

// What comes next for a thread that stands here in a task, its place, and its control variables. The error is that memory is
// out.
fn left_at(next: Next, task: u32, cursor: Cursor) -> Result<(Next, At, Nums), AllocError>
    ensures next { IfOk result (λ left. left.0 ≡ next) }
    ensures at { IfOk result (λ left. left.1 ≡ record { task = task; pc = cursor.pc }) }
    ensures ctl { IfOk result (λ left. left.2 ≡ cursor.ctl) }
{
    match narrow(cursor.pc) {
        Ok(pc) => Ok((next, At { task, pc }, cursor.ctl)),
        Err(halt) => {
            drop(next);
            Err(halt)
        }
    }
}

/// The control part of a subthread's run, without its data: what comes next for a thread that begins so, where it then
/// stands, and its control variables. The error is that memory is out.
pub fn control_of(
    alloc: Global,
    work: &Work,
    begins: &Next,
    thread: ThreadNo,
    child: Option<ThreadNo>,
    at: At,
    ctl: &Nums,
) -> Result<(Next, At, Nums), AllocError>
    ensures next { IfOk result (λ left. left.0 ≡ (body_from work.now begins.now.sync child (record { at = at; ctl = ctl.now; me = thread })).next) }
    ensures place { IfOk result (λ left. record { at = left.1; ctl = left.2; me = thread } ≡ (body_from work.now begins.now.sync child (record { at = at; ctl = ctl.now; me = thread })).at) }
{
    let ground = control_ground(alloc, work, at.task, thread);
    let ctl = ctl.copied(alloc)?;
    let mut cursor = Cursor {
        pc: at.pc as usize,
        ctl,
    };
    begin_control(&begins.sync, &ground, child, &mut cursor);
    let next = control_body(alloc, &ground, work.turns, &mut cursor)?;
    left_at(next, at.task, cursor)
}
