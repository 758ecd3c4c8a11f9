// The text that shows the order of a run.
ghost use Rattle.std.specs.Prelude.{◌≡◌, ◌≤◌, ◌++◌, suc, codes, length, map, IfOk, OnOk};
ghost use Rattle.task_ast.specs.View.{plain_program};
ghost use Rattle.task_ast.specs.meaning.Run.{plain_before};
ghost use Rattle.task_ast.specs.Plain.{order};
ghost use Rattle.lock_checker.specs.Accepted.{program_of};
ghost use Rattle.one_thread.specs.PlainRuns.{IsPlainRun};
ghost use Rattle.restart_log.specs.meaning.Tail.{why_word};
ghost use Rattle.run_views.specs.meaning.Order.{thread_text, sync_text, held_text, order_line, order_lines, end_line};
ghost use Rattle.run_views.specs.meaning.Waits.{nexts_in};
ghost use Rattle.run_views.specs.meaning.Deadlocks.{standing_text, deadlock_text};
ghost use Rattle.run_views.specs.meaning.OrderText.{order_text};
ghost use Rattle.run_views.specs.Seen.{child_in, seen};

use crate::deadlocks::push_standing;
use crate::names::{push_between, push_labelled, push_named_barrier, push_named_lock, push_number};
use gp_base::{End, Footprint, Inputs, Limits, Loc, LockNo, Seq, Text, ThreadNo, Why};
use lock_checker::Checked;
use one_thread::{PlainRun, Step, run_plain};
use run_standing::stand_before;
use std::alloc::{AllocError, Global};
use task_ast::{Head, SyncOp};

/// The thread that a subthread forked, whose registers it writes beside its own.
pub fn child_in(foot: &Footprint) -> Option<ThreadNo>
    ensures { result ≡ child_in foot.now }
{
    match foot.writes.get(1) {
        Some(Loc::Regs(child)) => Some(*child),
        _ => None,
    }
}

/// Appends a word and the thread that is forked, where it is known.
pub fn push_child(
    text: &mut Vec<u8>,
    word: &[u8],
    child: Option<ThreadNo>,
) -> Result<(), AllocError>
    ensures { OnOk result (text.new.items ≡ text.old.items ++ word.now ++ thread_text child) }
{
    match child {
        Some(child) => push_labelled(text, word, child.0),
        None => text.extend_from_slice(word),
    }
}

// Appends the synchronisation that a subthread begins with.
fn push_sync(
    text: &mut Vec<u8>,
    heads: &[Head],
    sync: &SyncOp,
    child: Option<ThreadNo>,
) -> Result<(), AllocError>
    ensures { OnOk result (text.new.items ≡ text.old.items ++ sync_text heads.now sync.now child) }
{
    match sync {
        SyncOp::Start => text.extend_from_slice(b"start"),
        SyncOp::Lock(lock) => push_named_lock(text, b"lock ", heads, *lock),
        SyncOp::Unlock(lock) => push_named_lock(text, b"unlock ", heads, *lock),
        SyncOp::Fork { .. } => push_child(text, b"fork ", child),
        SyncOp::Join(thread) => push_labelled(text, b"join ", *thread),
        SyncOp::Barrier(barrier) => push_named_barrier(text, b"barrier ", heads, *barrier),
        SyncOp::Settle { .. } => text.extend_from_slice(b"settle"),
        SyncOp::End | SyncOp::BadIndex | SyncOp::Spent => Ok(()),
    }
}

// Appends locks, each after a space.
fn push_held(text: &mut Vec<u8>, heads: &[Head], held: &[LockNo]) -> Result<(), AllocError>
    ensures { OnOk result (text.new.items ≡ text.old.items ++ held_text heads.now held.now) }
{
    for lock in held {
        push_named_lock(text, b" ", heads, *lock)?;
    }
    Ok(())
}

/// Appends the line of a subthread at its position.
pub fn push_step(
    text: &mut Vec<u8>,
    heads: &[Head],
    position: usize,
    step: &Step,
) -> Result<(), AllocError>
    ensures { OnOk result (text.new.items ≡ text.old.items ++ order_line heads.now position (seen step.now)) }
{
    push_number(text, position)?;
    push_labelled(text, b" thread ", step.thread.0)?;
    push_between(text, b" line ", step.begins.line, b" ")?;
    push_sync(text, heads, &step.begins.sync, child_in(&step.foot))?;
    push_between(text, b" prints ", step.prints.len(), b" holds")?;
    push_held(text, heads, step.held.as_slice())?;
    text.extend_from_slice(b"\n")
}

// Appends the lines of subthreads, the first of which is at position 0.
fn push_order(text: &mut Vec<u8>, heads: &[Head], order: &[Step]) -> Result<(), AllocError>
    ensures { OnOk result (text.new.items ≡ text.old.items ++ order_lines heads.now 0 (map seen order.now)) }
{
    for (at, step) in order.iter().enumerate() {
        push_step(text, heads, at, step)?;
    }
    Ok(())
}

/// The word for why a run is stuck.
pub fn why_word(why: Why) -> &'static str
    ensures { result.now ≡ why_word why }
{
    match why {
        Why::Deadlock => "deadlock",
        Why::Index => "index",
        Why::Join => "join",
        Why::Threads => "threads",
    }
}

/// Appends the line that tells how a run ends.
pub fn push_end(text: &mut Vec<u8>, end: End) -> Result<(), AllocError>
    ensures { OnOk result (text.new.items ≡ text.old.items ++ end_line end) }
{
    match end {
        End::Finished => text.extend_from_slice(b"end finished\n"),
        End::Stuck { why, thread, line } => {
            text.extend_from_slice(b"end stuck ")?;
            text.extend_from_slice(why_word(why).as_bytes())?;
            push_labelled(text, b" thread ", thread.0)?;
            push_between(text, b" line ", line, b"\n")
        }
        End::Spent(position) => push_between(text, b"end spent ", position.0, b"\n"),
    }
}

// Appends who waits for what after all subthreads of a run, of which there are so many.
fn push_stand(
    alloc: Global,
    text: &mut Vec<u8>,
    c: &Checked,
    inputs: &Inputs,
    limits: Limits,
    subthreads: u32,
) -> Result<(), AllocError>
    requires { subthreads ≡ length (order (plain_program (program_of c.now)) inputs.now limits) }
    ensures { let program = plain_program (program_of c.now) in let last = plain_before program inputs.now limits (suc limits.subthreads) in OnOk result (text.new.items
        ≡ text.old.items ++ standing_text program.heads last.owners (nexts_in last)) }
{
    match stand_before(alloc, c, inputs, limits, subthreads)? {
        Some(standing) => push_standing(alloc, text, c.program().heads.as_slice(), &standing),
        None => Ok(()),
    }
}

// How many subthreads a run has, with this limit of them.
fn subthreads_of(run: &PlainRun, most: u32) -> u32
    requires { length run.now.order ≤ most }
    ensures { result ≡ length run.now.order }
{
    run.order.len() as u32
}

// Appends who waits for what where no thread of a run can go on.
fn push_deadlock(
    alloc: Global,
    text: &mut Vec<u8>,
    c: &Checked,
    inputs: &Inputs,
    limits: Limits,
    run: &PlainRun,
) -> Result<(), AllocError>
    requires { IsPlainRun (plain_program (program_of c.now)) inputs.now limits run.now }
    ensures { let program = plain_program (program_of c.now) in OnOk result (text.new.items
        ≡ text.old.items ++ deadlock_text program.heads (plain_before program inputs.now limits (suc limits.subthreads)) run.now.end) }
{
    match run.end {
        End::Stuck {
            why: Why::Deadlock,
            ..
        } => {
            let subthreads = subthreads_of(run, limits.subthreads);
            push_stand(alloc, text, c, inputs, limits, subthreads)
        }
        _ => Ok(()),
    }
}

/// The text that shows the order of a program's run on one thread without faults: a line for each subthread by its
/// position, with its thread, the synchronisation that it begins with, how many lines it prints and the locks that it
/// holds; then how the run ends. Where no thread can go on, a line for each that has not ended tells what it waits for,
/// and one for each barrier at which threads stand how many are missing. The error is that memory is out.
pub fn order_text(
    alloc: Global,
    c: &Checked,
    inputs: &Inputs,
    limits: Limits,
) -> Result<Text, AllocError>
    ensures { IfOk result (λ text. text ≡ order_text (plain_program (program_of c.now)) inputs.now limits) }
{
    let run = run_plain(alloc, c, inputs, limits)?;
    let mut text = Vec::from_slice(alloc, b"order\n")?;
    push_order(
        &mut text,
        c.program().heads.as_slice(),
        run.order.as_slice(),
    )?;
    push_end(&mut text, run.end)?;
    push_deadlock(alloc, &mut text, c, inputs, limits, &run)?;
    Ok(Seq::from_vec(text))
}
