// A whole run that restarts selectively.
ghost use Rattle.std.specs.Prelude.{◌≡◌, IfOk, OnOk};
ghost use Rattle.std.specs.Io.KnownBytes.{Appends};
ghost use Rattle.subthread.specs.Tasks.{Suits};
ghost use Rattle.crew.specs.Unposted.{IsUnposted};
ghost use Rattle.restart_log.specs.meaning.Lines.{printed};
ghost use Rattle.whole_run.specs.Drive.{journal_in, JournalStands, ReportsRun, all_lines, WritesRetired, HasRunCause, HasRunCauses, ArePosts, IsUntaken, RanOut};
ghost use Rattle.whole_run.specs.Notes.{NotesRun};
ghost use Rattle.engine.specs.Drive.{batch_of};

use crew::{Crew, NoNotes, Notes};
use gp_base::{Faults, Inputs, Limits, NeverSink, Sink};
use reorder_list::{EngineStop, Report};
use std::alloc::Global;
use std::thread::Threads;
use subthread::Work;
use task_ast::Layout;
use whole_run::{BatchRun, Recovery, drive_by};

/// Runs a batch as `drive` does, and has notes taken of it: what is applied is noted, and each position that retires is
/// told to `log` once its lines are written, with what its subthread leaves in the plain run. Where the run stops, a
/// part of the last one may be missing. A fault of the log stops the run as one of the output does.
pub fn drive_noted<R: Threads + Sync, C: Crew, O: Sink, N: Notes, L: Sink>(
    rt: &R,
    alloc: Global,
    work: &Work,
    layout: Layout,
    inputs: Inputs,
    faults: Faults,
    limits: Limits,
    crew: &mut C,
    out: &mut O,
    notes: &mut N,
    log: &mut L,
) -> Result<Report, EngineStop>
    requires suits { Suits work.now layout inputs limits }
    requires unposted { IsUnposted C.ready C.work C.out C.posted crew.old work.now }
    ensures journal { JournalStands (batch_of work.now inputs limits faults) (journal_in result) }
    ensures report { IfOk result (ReportsRun (batch_of work.now inputs limits faults)) }
    ensures lines { OnOk result (Appends (O.written out.old) (O.written out.new) (printed (all_lines (batch_of work.now inputs limits faults)))) }
    ensures partly { WritesRetired (batch_of work.now inputs limits faults) (O.written out.old) (O.written out.new) (journal_in result) }
    ensures cause { HasRunCauses (O.faults out.old) (O.faults out.new) (L.faults log.old) (L.faults log.new) result }
    ensures notes { NotesRun (N.tells notes.old) (N.tells notes.new) N.part (batch_of work.now inputs limits faults) (L.written log.old) (L.written log.new) result }
    ensures ready { C.ready crew.new }
    ensures work { C.work crew.new ≡ C.work crew.old }
    ensures posts { ArePosts (C.posted crew.new) (journal_in result) }
    ensures out { ¬ RanOut result → IsUntaken (C.out crew.new) (journal_in result) }
{
    let run = BatchRun {
        work,
        recovery: Recovery::Selective,
        layout,
        inputs,
        faults,
        limits,
    };
    drive_by(rt, alloc, run, crew, out, notes, log)
}

/// Runs a batch with a crew, which has not been posted to, and writes the printed lines to `out`: at the end exactly
/// those of the plain run. Nothing else is written. Where the output takes no more or memory is out, the run stops: all
/// lines of each position that retired are written, and at most a part of those of the next. It always returns; some
/// attempts that were ended may still be out with the crew.
pub fn drive<R: Threads + Sync, C: Crew, O: Sink>(
    rt: &R,
    alloc: Global,
    work: &Work,
    layout: Layout,
    inputs: Inputs,
    faults: Faults,
    limits: Limits,
    crew: &mut C,
    out: &mut O,
) -> Result<Report, EngineStop>
    requires suits { Suits work.now layout inputs limits }
    requires unposted { IsUnposted C.ready C.work C.out C.posted crew.old work.now }
    ensures journal { JournalStands (batch_of work.now inputs limits faults) (journal_in result) }
    ensures report { IfOk result (ReportsRun (batch_of work.now inputs limits faults)) }
    ensures lines { OnOk result (Appends (O.written out.old) (O.written out.new) (printed (all_lines (batch_of work.now inputs limits faults)))) }
    ensures partly { WritesRetired (batch_of work.now inputs limits faults) (O.written out.old) (O.written out.new) (journal_in result) }
    ensures cause { HasRunCause (O.faults out.old) (O.faults out.new) result }
    ensures ready { C.ready crew.new }
    ensures work { C.work crew.new ≡ C.work crew.old }
    ensures posts { ArePosts (C.posted crew.new) (journal_in result) }
    ensures out { ¬ RanOut result → IsUntaken (C.out crew.new) (journal_in result) }
{
    let mut notes = NoNotes;
    let mut nobody = NeverSink::new();
    drive_noted(
        rt,
        alloc,
        work,
        layout,
        inputs,
        faults,
        limits,
        crew,
        out,
        &mut notes,
        &mut nobody,
    )
}
