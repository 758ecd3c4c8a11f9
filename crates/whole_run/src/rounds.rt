// The rounds of a run.
ghost use Rattle.std.specs.Prelude.{◌≡◌, ◌<◌, None, OnOk, OnErr, IfOk, IsErrOf};
ghost use Rattle.reorder_list.specs.declared.report.StopWhy.TheVariants as stop;
ghost use Rattle.crew.specs.Noted.{NotesRetired, NotesPart};
ghost use Rattle.dependence.specs.meaning.Journal.{Complete};
ghost use Rattle.whole_run.specs.View.{dependence_in, end_in, now};
ghost use Rattle.whole_run.specs.Gives.{struck_now, IsBack, IsScouted, HasStopCause, HasStopCauses, NoneToPost};
ghost use Rattle.whole_run.specs.Notes.{KeepsLeftBy, KeepsNotes, KeepsAllNotes, StopsNotes};
ghost use Rattle.whole_run.specs.Takes.{CrewStands};
ghost use Rattle.whole_run.specs.inner.Rounds.{left_to_know, Agrees, Leaves, IsQuiet, IsUnfinished, IsIssued, KeepsWritten, KeepsPart, TakeGives};

use crate::calls::{Calls, Issued};
use crew::{Crew, Notes};
use gp_base::{End, Pos, Sink, SinkFault};
use reorder_list::StopWhy;
use std::alloc::AllocError;
use std::thread::Threads;

// Takes one run of a task, where one is out.
fn take_one<R: Threads + Sync, E: Calls, C: Crew, N: Notes>(
    rt: &R,
    engine: &mut E,
    crew: &mut C,
    notes: &mut N,
) -> Result<bool, AllocError>
    requires agrees { Agrees (E.view engine.old) (C.ready crew.old) (C.work crew.old) (C.posted crew.old) (C.out crew.old) }
    ensures leaves { Leaves (E.view engine.old) (E.view engine.new) (C.ready crew.new) (C.work crew.new) (C.posted crew.new) }
    ensures notes { KeepsAllNotes (E.view engine.old) (E.view engine.new) (N.tells notes.old) (N.tells notes.new) }
    ensures crew { OnOk result (CrewStands (E.view engine.new) (C.posted crew.new) (C.out crew.new)) }
    ensures retired { (now (E.view engine.new)).retired ≡ (now (E.view engine.old)).retired }
    ensures struck { struck_now (E.view engine.new) ≡ struck_now (E.view engine.old) }
    ensures scouted { IsScouted (E.view engine.old) → IsScouted (E.view engine.new) }
    ensures took { IfOk result (TakeGives (E.view engine.old) (E.view engine.new)) }
{
    engine.reserve()?;
    match crew.next(rt)? {
        None => Ok(false),
        Some(done) => {
            engine.accept(done, notes)?;
            Ok(true)
        }
    }
}

// Posts each position that may be posted of those that are looked at.
fn post_all<R: Threads + Sync, E: Calls, C: Crew>(
    rt: &R,
    engine: &mut E,
    crew: &mut C,
) -> Result<(), AllocError>
    requires agrees { Agrees (E.view engine.old) (C.ready crew.old) (C.work crew.old) (C.posted crew.old) (C.out crew.old) }
    ensures leaves { Leaves (E.view engine.old) (E.view engine.new) (C.ready crew.new) (C.work crew.new) (C.posted crew.new) }
    ensures left { KeepsLeftBy (E.view engine.old) (E.view engine.new) }
    ensures crew { OnOk result (CrewStands (E.view engine.new) (C.posted crew.new) (C.out crew.new)) }
    ensures retired { (now (E.view engine.new)).retired ≡ (now (E.view engine.old)).retired }
    ensures struck { struck_now (E.view engine.new) ≡ struck_now (E.view engine.old) }
    ensures none { OnOk result (NoneToPost (E.view engine.new) 0) }
{
    let mut from = Pos(0);
    'posting: while let Some(position) = engine.runnable(from) {
        engine.post(rt, crew, position)?;
        from = Pos(position.0.saturating_add(1));
    }
    Ok(())
}

// Posts what may be posted and takes runs of tasks until each position that has not retired was run at some attempt.
fn scout_all<R: Threads + Sync, E: Calls, C: Crew, N: Notes>(
    rt: &R,
    engine: &mut E,
    crew: &mut C,
    notes: &mut N,
) -> Result<(), AllocError>
    requires agrees { Agrees (E.view engine.old) (C.ready crew.old) (C.work crew.old) (C.posted crew.old) (C.out crew.old) }
    ensures leaves { Leaves (E.view engine.old) (E.view engine.new) (C.ready crew.new) (C.work crew.new) (C.posted crew.new) }
    ensures notes { KeepsAllNotes (E.view engine.old) (E.view engine.new) (N.tells notes.old) (N.tells notes.new) }
    ensures crew { OnOk result (CrewStands (E.view engine.new) (C.posted crew.new) (C.out crew.new)) }
    ensures retired { (now (E.view engine.new)).retired ≡ (now (E.view engine.old)).retired }
    ensures struck { struck_now (E.view engine.new) ≡ struck_now (E.view engine.old) }
    ensures scouted { OnOk result (IsScouted (E.view engine.new)) }
{
    'scouting: while !engine.scouted() {
        post_all(rt, engine, crew)?;
        take_one(rt, engine, crew, notes)?;
    }
    Ok(())
}

// Takes runs of tasks until all is back that a restart waits for.
fn bring_home<R: Threads + Sync, E: Calls, C: Crew, N: Notes>(
    rt: &R,
    engine: &mut E,
    crew: &mut C,
    notes: &mut N,
) -> Result<(), AllocError>
    requires agrees { Agrees (E.view engine.old) (C.ready crew.old) (C.work crew.old) (C.posted crew.old) (C.out crew.old) }
    ensures leaves { Leaves (E.view engine.old) (E.view engine.new) (C.ready crew.new) (C.work crew.new) (C.posted crew.new) }
    ensures notes { KeepsAllNotes (E.view engine.old) (E.view engine.new) (N.tells notes.old) (N.tells notes.new) }
    ensures crew { OnOk result (CrewStands (E.view engine.new) (C.posted crew.new) (C.out crew.new)) }
    ensures retired { (now (E.view engine.new)).retired ≡ (now (E.view engine.old)).retired }
    ensures struck { struck_now (E.view engine.new) ≡ struck_now (E.view engine.old) }
    ensures scouted { IsScouted (E.view engine.old) → IsScouted (E.view engine.new) }
    ensures home { OnOk result (IsBack (E.view engine.new)) }
{
    'homing: while !engine.all_home() {
        take_one(rt, engine, crew, notes)?;
    }
    Ok(())
}

// Makes all restarts that are due, each once it is known what all positions touch and all is back that it waits for.
fn detect_all<R: Threads + Sync, E: Calls, C: Crew, N: Notes>(
    rt: &R,
    engine: &mut E,
    crew: &mut C,
    notes: &mut N,
) -> Result<(), AllocError>
    requires agrees { Agrees (E.view engine.old) (C.ready crew.old) (C.work crew.old) (C.posted crew.old) (C.out crew.old) }
    ensures leaves { Leaves (E.view engine.old) (E.view engine.new) (C.ready crew.new) (C.work crew.new) (C.posted crew.new) }
    ensures notes { KeepsAllNotes (E.view engine.old) (E.view engine.new) (N.tells notes.old) (N.tells notes.new) }
    ensures crew { OnOk result (CrewStands (E.view engine.new) (C.posted crew.new) (C.out crew.new)) }
    ensures retired { (now (E.view engine.new)).retired ≡ (now (E.view engine.old)).retired }
    ensures none_struck { OnOk result (struck_now (E.view engine.new) ≡ None) }
{
    'detecting: while engine.due() {
        scout_all(rt, engine, crew, notes)?;
        bring_home(rt, engine, crew, notes)?;
        engine.detect()?;
    }
    Ok(())
}

// Tells the log that a position has retired.
fn tell<N: Notes, L: Sink>(notes: &mut N, position: Pos, log: &mut L) -> Result<(), StopWhy>
    ensures told { OnOk result (NotesRetired (N.tells notes.old) (N.tells notes.new) (L.written log.old) (L.written log.new) position) }
    ensures part { OnErr result (NotesPart (N.tells notes.old) N.part (L.written log.old) (L.written log.new) position) }
    ensures cause { HasStopCause (L.faults log.old) (L.faults log.new) result }
{
    match notes.retired(position, log) {
        Ok(()) => Ok(()),
        Err(SinkFault::Failed) => Err(StopWhy::WriteFault),
        Err(SinkFault::OutOfMemory) => Err(StopWhy::OutOfMemory),
    }
}

// Retires what may retire, each position after all restarts that are due, and tells the log of each.
fn retire_all<R: Threads + Sync, E: Calls, C: Crew, O: Sink, N: Notes, L: Sink>(
    rt: &R,
    engine: &mut E,
    crew: &mut C,
    out: &mut O,
    notes: &mut N,
    log: &mut L,
) -> Result<(), StopWhy>
    requires agrees { Agrees (E.view engine.old) (C.ready crew.old) (C.work crew.old) (C.posted crew.old) (C.out crew.old) }
    ensures leaves { Leaves (E.view engine.old) (E.view engine.new) (C.ready crew.new) (C.work crew.new) (C.posted crew.new) }
    ensures crew { ¬ IsErrOf result stop.OutOfMemory → CrewStands (E.view engine.new) (C.posted crew.new) (C.out crew.new) }
    ensures quiet { OnOk result (IsQuiet (E.view engine.new)) }
    ensures written { OnOk result (KeepsWritten (E.view engine.old) (E.view engine.new) (O.written out.old) (O.written out.new)) }
    ensures partly { OnErr result (KeepsPart (E.view engine.old) (E.view engine.new) (O.written out.old) (O.written out.new)) }
    ensures cause { HasStopCauses (O.faults out.old) (O.faults out.new) (L.faults log.old) (L.faults log.new) result }
    ensures notes { OnOk result (KeepsNotes (E.view engine.old) (E.view engine.new) (N.tells notes.old) (N.tells notes.new) (L.written log.old) (L.written log.new)) }
    ensures stopped { OnErr result (StopsNotes (E.view engine.old) (E.view engine.new) (N.tells notes.old) (N.tells notes.new) N.part (L.written log.old) (L.written log.new)) }
{
    'retiring: loop {
        detect_all(rt, engine, crew, notes)?;
        let Some(position) = engine.retire(out)? else {
            return Ok(());
        };
        tell(notes, position, log)?;
    }
}

// Issues until it is needed what a thread does next, or a settle waits, or the end is known.
fn issue_all<R: Threads + Sync, E: Calls, C: Crew, N: Notes>(
    rt: &R,
    engine: &mut E,
    crew: &mut C,
    notes: &mut N,
) -> Result<(), AllocError>
    requires agrees { Agrees (E.view engine.old) (C.ready crew.old) (C.work crew.old) (C.posted crew.old) (C.out crew.old) }
    ensures leaves { Leaves (E.view engine.old) (E.view engine.new) (C.ready crew.new) (C.work crew.new) (C.posted crew.new) }
    ensures notes { KeepsAllNotes (E.view engine.old) (E.view engine.new) (N.tells notes.old) (N.tells notes.new) }
    ensures crew { OnOk result (CrewStands (E.view engine.new) (C.posted crew.new) (C.out crew.new)) }
    ensures retired { (now (E.view engine.new)).retired ≡ (now (E.view engine.old)).retired }
    ensures issued { OnOk result (IsIssued (E.view engine.new)) }
{
    'issuing: loop {
        detect_all(rt, engine, crew, notes)?;
        match engine.issue()? {
            Issued::One(_) => {}
            Issued::Needs(_) => return Ok(()),
            Issued::Settles(_) => return Ok(()),
            Issued::Ended(_) => return Ok(()),
        }
    }
}

// Issues what can be issued, posts what may be posted and takes one run of a task, where nothing retires and the run has
// not finished. That leaves less to do, or makes the end known.
fn advance<R: Threads + Sync, E: Calls, C: Crew, N: Notes>(
    rt: &R,
    engine: &mut E,
    crew: &mut C,
    notes: &mut N,
) -> Result<(), AllocError>
    requires agrees { Agrees (E.view engine.old) (C.ready crew.old) (C.work crew.old) (C.posted crew.old) (C.out crew.old) }
    requires quiet { IsQuiet (E.view engine.old) }
    requires unfinished { IsUnfinished (E.view engine.old) }
    ensures leaves { Leaves (E.view engine.old) (E.view engine.new) (C.ready crew.new) (C.work crew.new) (C.posted crew.new) }
    ensures notes { KeepsAllNotes (E.view engine.old) (E.view engine.new) (N.tells notes.old) (N.tells notes.new) }
    ensures crew { OnOk result (CrewStands (E.view engine.new) (C.posted crew.new) (C.out crew.new)) }
    ensures retired { (now (E.view engine.new)).retired ≡ (now (E.view engine.old)).retired }
    ensures falls { OnOk result (left_to_know (E.view engine.new) < left_to_know (E.view engine.old)) }
{
    issue_all(rt, engine, crew, notes)?;
    post_all(rt, engine, crew)?;
    take_one(rt, engine, crew, notes)?;
    Ok(())
}

/// Goes on with a run to its end, and answers how it ends.
pub fn run_rounds<R: Threads + Sync, E: Calls, C: Crew, O: Sink, N: Notes, L: Sink>(
    rt: &R,
    engine: &mut E,
    crew: &mut C,
    out: &mut O,
    notes: &mut N,
    log: &mut L,
) -> Result<End, StopWhy>
    requires agrees { Agrees (E.view engine.old) (C.ready crew.old) (C.work crew.old) (C.posted crew.old) (C.out crew.old) }
    ensures leaves { Leaves (E.view engine.old) (E.view engine.new) (C.ready crew.new) (C.work crew.new) (C.posted crew.new) }
    ensures crew { ¬ IsErrOf result stop.OutOfMemory → CrewStands (E.view engine.new) (C.posted crew.new) (C.out crew.new) }
    ensures complete { OnOk result (Complete (dependence_in (E.view engine.new).batch) (E.view engine.new).batch.faults (E.view engine.new).events) }
    ensures end { IfOk result (λ end. end ≡ end_in (E.view engine.new).batch) }
    ensures written { OnOk result (KeepsWritten (E.view engine.old) (E.view engine.new) (O.written out.old) (O.written out.new)) }
    ensures partly { OnErr result (KeepsPart (E.view engine.old) (E.view engine.new) (O.written out.old) (O.written out.new)) }
    ensures cause { HasStopCauses (O.faults out.old) (O.faults out.new) (L.faults log.old) (L.faults log.new) result }
    ensures notes { OnOk result (KeepsNotes (E.view engine.old) (E.view engine.new) (N.tells notes.old) (N.tells notes.new) (L.written log.old) (L.written log.new)) }
    ensures stopped { OnErr result (StopsNotes (E.view engine.old) (E.view engine.new) (N.tells notes.old) (N.tells notes.new) N.part (L.written log.old) (L.written log.new)) }
{
    'rounds: loop {
        retire_all(rt, engine, crew, out, notes, log)?;
        if let Some(end) = engine.finished() {
            return Ok(end);
        }
        advance(rt, engine, crew, notes)?;
    }
}
