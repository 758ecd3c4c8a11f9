// A whole run.
ghost use Rattle.std.specs.Prelude.{◌≡◌, IfOk, IfErr, OnOk};
ghost use Rattle.std.specs.Io.KnownBytes.{Appends};
ghost use Rattle.crew.specs.Unposted.{IsUnposted};
ghost use Rattle.restart_log.specs.meaning.Lines.{printed};
ghost use Rattle.whole_run.specs.View.{begun, Stands};
ghost use Rattle.whole_run.specs.Starting.{CanBegin, batch_asked};
ghost use Rattle.whole_run.specs.Notes.{NotesRun};
ghost use Rattle.whole_run.specs.Drive.{journal_in, JournalStands, ReportsRun, all_lines, WritesRetired, HasRunCauses, ArePosts, IsUntaken, RanOut};

use crate::BatchRun;
use crate::calls::Calls;
use crate::engine::Engine;
use crate::rounds::run_rounds;
use crew::{Crew, Notes};
use gp_base::{Journal, Seq, Sink};
use reorder_list::{EngineStop, Report, StopWhy};
use std::alloc::Global;
use std::thread::Threads;

// Goes on with a run from its beginning, and tells what it came to.
fn finish<R: Threads + Sync, E: Calls, C: Crew, O: Sink, N: Notes, L: Sink>(
    rt: &R,
    engine: E,
    crew: &mut C,
    out: &mut O,
    notes: &mut N,
    log: &mut L,
) -> Result<Report, EngineStop>
    requires stands { Stands (E.view engine) }
    requires begun { E.view engine ≡ begun (E.view engine).batch }
    requires unposted { IsUnposted C.ready C.work C.out C.posted crew.old (E.view engine).batch.work }
    ensures journal { JournalStands (E.view engine).batch (journal_in result) }
    ensures report { IfOk result (ReportsRun (E.view engine).batch) }
    ensures lines { OnOk result (Appends (O.written out.old) (O.written out.new) (printed (all_lines (E.view engine).batch))) }
    ensures partly { WritesRetired (E.view engine).batch (O.written out.old) (O.written out.new) (journal_in result) }
    ensures cause { HasRunCauses (O.faults out.old) (O.faults out.new) (L.faults log.old) (L.faults log.new) result }
    ensures notes { NotesRun (N.tells notes.old) (N.tells notes.new) N.part (E.view engine).batch (L.written log.old) (L.written log.new) result }
    ensures ready { C.ready crew.new }
    ensures work { C.work crew.new ≡ C.work crew.old }
    ensures posts { ArePosts (C.posted crew.new) (journal_in result) }
    ensures out { ¬ RanOut result → IsUntaken (C.out crew.new) (journal_in result) }
{
    let mut engine = engine;
    match run_rounds(rt, &mut engine, crew, out, notes, log) {
        Ok(end) => Ok(engine.into_report(end)),
        Err(why) => {
            let journal = engine.into_journal();
            Err(EngineStop { why, journal })
        }
    }
}

/// Runs a batch with a crew, which has not been posted to, and writes the printed lines to `out`: at the end exactly
/// those of the plain run. Nothing else is written. Where the output takes no more or memory is out, the run stops: all
/// lines of each position that retired are written, and at most a part of those of the next. It always returns; some
/// attempts that were ended may still be out with the crew.
///
/// What is applied is noted, and each position that retires is told to `log`, once its lines are written: where the run
/// restarts selectively, with what its subthread leaves in the plain run. Where the run stops, a part of the last one
/// may be missing.
pub fn drive_by<R: Threads + Sync, C: Crew, O: Sink, N: Notes, L: Sink>(
    rt: &R,
    alloc: Global,
    run: BatchRun<'_>,
    crew: &mut C,
    out: &mut O,
    notes: &mut N,
    log: &mut L,
) -> Result<Report, EngineStop>
    requires begins { CanBegin run }
    requires unposted { IsUnposted C.ready C.work C.out C.posted crew.old run.work.now }
    ensures journal { JournalStands (batch_asked run.entry) (journal_in result) }
    ensures report { IfOk result (ReportsRun (batch_asked run.entry)) }
    ensures lines { OnOk result (Appends (O.written out.old) (O.written out.new) (printed (all_lines (batch_asked run.entry)))) }
    ensures partly { WritesRetired (batch_asked run.entry) (O.written out.old) (O.written out.new) (journal_in result) }
    ensures cause { HasRunCauses (O.faults out.old) (O.faults out.new) (L.faults log.old) (L.faults log.new) result }
    ensures notes { NotesRun (N.tells notes.old) (N.tells notes.new) N.part (batch_asked run.entry) (L.written log.old) (L.written log.new) result }
    ensures ready { C.ready crew.new }
    ensures work { C.work crew.new ≡ C.work crew.old }
    ensures posts { ArePosts (C.posted crew.new) (journal_in result) }
    ensures out { ¬ RanOut result → IsUntaken (C.out crew.new) (journal_in result) }
{
    match Engine::new(alloc, run) {
        Ok(engine) => finish(rt, engine, crew, out, notes, log),
        Err(_) => Err(EngineStop {
            why: StopWhy::OutOfMemory,
            journal: Journal {
                events: Seq::new(alloc),
                restarts: Seq::new(alloc),
            },
        }),
    }
}
