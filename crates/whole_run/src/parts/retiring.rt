// Retiring the oldest position.

ghost use Rattle.std.specs.Prelude.{◌≡◌, ◌≤◌, false, is_some, IsTrue, IfOk, OnErr, OnOk};
ghost use Rattle.std.specs.Io.KnownBytes.{Appends};
ghost use Rattle.gp_base.specs.meaning.Sinks.{AppendsPrefix};
ghost use Rattle.reorder_list.specs.Entries.{IsInRow};
ghost use Rattle.restart_log.specs.meaning.Lines.{printed};
ghost use Rattle.whole_run.specs.Gives.{RetireGives, RetireWrites, HasStopCause};
ghost use Rattle.whole_run.specs.inner.Kept.{batch_in, view_of, Kept};
ghost use Rattle.whole_run.specs.Recovering.{HasCuts};
ghost use Rattle.whole_run.specs.inner.Retiring.{none_strikes, is_old, block_is_safe, is_safe, oldest_retires, oldest_lines};

use crate::parts::backing::drop_before;
use crate::parts::{Backup, FaultsInOrder, Parts, Plan};
use crate::{Halt, Recovery};
use gp_base::limits::LONGEST_DELAY;
use gp_base::{Event, Pos, Sink, SinkFault, put_all};
use reorder_list::{Entry, Rol, StopWhy};
use restart_log::{is_printed, printed};
use std::alloc::{AllocError, Global};

// Whether no fault strikes at this front, or no fault that is due.
fn none_strikes(rol: &Rol, faults: &FaultsInOrder, front: u32, any: bool) -> bool
    requires { IsInRow rol.now.entries }
    ensures { result ≡ none_strikes any rol.now.entries front faults.now.list }
{
    faults.least_struck(rol, front, any).is_none()
}

// Whether no fault can come that strikes an entry at this front.
fn is_old(begun: u32, front: u32) -> bool
    ensures { result ≡ is_old begun front }
{
    begun as u64 + LONGEST_DELAY as u64 <= front as u64
}

// Whether the rest of the block of a position, which is the oldest, was issued, and is applied, and no fault can come
// that strikes any of it. Later positions began no earlier, so the last of the block tells.
fn block_is_safe(every: u32, rol: &Rol, whole: u32, oldest: Pos, front: u32) -> bool
    requires { 1 ≤ every }
    ensures { result ≡ block_is_safe every rol.now.entries whole oldest front }
{
    let next = (oldest.0 - oldest.0 % every) as u64 + every as u64;
    if next > whole as u64 {
        return false;
    }
    match rol.get(Pos(next as u32 - 1)) {
        Some(last) => is_old(last.begun, front),
        None => false,
    }
}

// Whether no fault can strike the oldest entry any more, or, where all is rolled back, any of its block.
fn is_safe(recovery: Recovery, rol: &Rol, backup: &Backup, oldest: &Entry, front: u32) -> bool
    requires { HasCuts recovery }
    ensures { result ≡ is_safe recovery rol.now.entries backup.now.whole oldest.now front }
{
    match recovery {
        Recovery::Selective => is_old(oldest.begun, front),
        Recovery::Rollback(every) => block_is_safe(every, rol, backup.whole, oldest.pos, front),
    }
}

// Whether the oldest entry is applied and no fault can strike it any more, or any that would roll it back.
fn oldest_retires(plan: &Plan, parts: &Parts) -> bool
    requires cuts { HasCuts plan.now.recovery }
    requires row { IsInRow parts.now.rol.entries }
    ensures { result ≡ oldest_retires plan.now.recovery (is_some parts.now.ended) parts.now.rol.entries parts.now.backup.whole parts.now.issued plan.now.faults.list }
{
    let faults = &plan.faults;
    let rol = &parts.rol;
    let front = parts.issued;
    match rol.front() {
        Some(entry) => {
            entry.state.is_applied()
                && (is_safe(plan.recovery, rol, &parts.backup, entry, front)
                    || parts.ended.is_some() && none_strikes(rol, faults, front, true))
                && none_strikes(rol, faults, front, false)
        }
        None => false,
    }
}

// Writes all the bytes, or answers why not.
fn put<O: Sink>(out: &mut O, bytes: &[u8]) -> Result<(), StopWhy>
    ensures all { OnOk result (Appends (O.written out.old) (O.written out.new) bytes.now) }
    ensures prefix { OnErr result (AppendsPrefix (O.written out.old) (O.written out.new) bytes.now) }
    ensures cause { HasStopCause (O.faults out.old) (O.faults out.new) result }
{
    match put_all(out, bytes) {
        Ok(()) => Ok(()),
        Err(SinkFault::Failed) => Err(StopWhy::WriteFault),
        Err(SinkFault::OutOfMemory) => Err(StopWhy::OutOfMemory),
    }
}

// Whether this is the text of the lines of an entry, and the record cells, where it is the last one, are as they were
// left. The error is that memory is out.
fn is_whole(alloc: Global, parts: &Parts, entry: &Entry, text: &[u8]) -> Result<bool, AllocError>
    ensures { IfOk result (λ whole. IsTrue whole → text.now ≡ printed entry.now.prints) }
{
    let is_last = parts.rol.len() == 1 && matches!(parts.ended, Some(Halt::Ended(_)));
    if is_last && !parts.store.is_whole() {
        return Ok(false);
    }
    is_printed(alloc, text, &entry.prints)
}

// The text of the lines of an entry; where walks are compared, it is made twice. The error is that memory is out, or that
// the texts differ, or data are not as they were left, which is noted.
fn text_of(alloc: Global, plan: &Plan, parts: &Parts, entry: &Entry) -> Result<Vec<u8>, AllocError>
    ensures { IfOk result (λ text. text.items ≡ printed entry.now.prints) }
{
    let mut text = printed(alloc, &entry.prints)?;
    let recheck = &plan.work.recheck;
    if !recheck.is_on() {
        return Ok(text);
    }
    recheck.disturb_text(&mut text);
    if is_whole(alloc, parts, entry, &text)? {
        return Ok(text);
    }
    recheck.note_damaged(entry.pos);
    Err(AllocError)
}

// Writes the lines of the oldest entry. Where there are none and walks are not compared, nothing is made for that.
fn write_oldest<O: Sink>(
    alloc: Global,
    plan: &Plan,
    parts: &Parts,
    out: &mut O,
) -> Result<(), StopWhy>
    ensures all { OnOk result (Appends (O.written out.old) (O.written out.new) (printed (oldest_lines parts.now.rol.entries))) }
    ensures prefix { OnErr result (AppendsPrefix (O.written out.old) (O.written out.new) (printed (oldest_lines parts.now.rol.entries))) }
    ensures cause { HasStopCause (O.faults out.old) (O.faults out.new) result }
{
    match parts.rol.front() {
        Some(entry) => {
            if entry.prints.is_empty() && !plan.work.recheck.is_on() {
                return Ok(());
            }
            let text = text_of(alloc, plan, parts, entry)?;
            put(out, &text)
        }
        None => Ok(()),
    }
}

/// Retires the oldest position, whose lines it writes, and answers it, or answers `None` where that may not retire.
/// After an error nothing has retired, and `out` got a part of the lines.
pub fn retire<O: Sink>(
    alloc: Global,
    plan: &Plan,
    parts: &mut Parts,
    out: &mut O,
) -> Result<Option<Pos>, StopWhy>
    requires kept { Kept (batch_in plan.now) parts.old }
    requires closed { parts.old.ring.cleared ≡ false }
    ensures kept { Kept (batch_in plan.now) parts.new }
    ensures closed { parts.new.ring.cleared ≡ false }
    ensures gives { IfOk result (RetireGives (view_of (batch_in plan.now) parts.old) (view_of (batch_in plan.now) parts.new)) }
    ensures err { OnErr result (view_of (batch_in plan.now) parts.new ≡ view_of (batch_in plan.now) parts.old) }
    ensures lines { RetireWrites (view_of (batch_in plan.now) parts.old) (O.written out.old) (O.written out.new) result }
    ensures cause { HasStopCause (O.faults out.old) (O.faults out.new) result }
{
    if !oldest_retires(plan, parts) {
        return Ok(None);
    }
    parts.events.reserve(1)?;
    write_oldest(alloc, plan, parts, out)?;
    let entry = parts.rol.retire_front();
    let position = entry.pos;
    drop_before(&mut parts.backup, position.0 + 1);
    parts.events.push(Event::Retire(position));
    Ok(Some(position))
}
