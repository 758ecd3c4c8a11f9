// A whole run that rolls back to cuts.
ghost use Rattle.std.specs.Prelude.{◌≡◌, ◌≤◌, IfOk, OnOk};
ghost use Rattle.std.specs.Io.KnownBytes.{Appends};
ghost use Rattle.subthread.specs.Tasks.{Suits};
ghost use Rattle.crew.specs.Unposted.{IsUnposted};
ghost use Rattle.restart_log.specs.meaning.Lines.{printed};
ghost use Rattle.whole_run.specs.Drive.{journal_in, JournalStands, ReportsRun, all_lines, WritesRetired, HasRunCause, ArePosts, IsUntaken, RanOut};
ghost use Rattle.gp_checkpoint.specs.Drive.{batch_of};

use crew::{Crew, NoNotes};
use gp_base::{Faults, Inputs, Limits, NeverSink, Sink};
use reorder_list::{EngineStop, Report};
use std::alloc::Global;
use std::thread::Threads;
use subthread::Work;
use task_ast::Layout;
use whole_run::{BatchRun, Recovery, drive_by};

/// Runs a batch as `engine::drive` does, but by checkpoints: the data are copied at the cuts, which are the multiples of
/// `every` and the subthreads that begin with a settle, and a fault rolls all from its cut on back to the copy there.
/// The positions of a block, from one cut to the next, run once all before it is applied, and retire once no fault can
/// strike any of it. The printed lines, the end and the records are those of the plain run all the same; the journal's
/// restarts are the rollbacks.
pub fn ckpt_drive<R: Threads + Sync, C: Crew, O: Sink>(
    rt: &R,
    alloc: Global,
    work: &Work,
    layout: Layout,
    inputs: Inputs,
    faults: Faults,
    limits: Limits,
    every: u32,
    crew: &mut C,
    out: &mut O,
) -> Result<Report, EngineStop>
    requires suits { Suits work.now layout inputs limits }
    requires some { 1 ≤ every }
    requires unposted { IsUnposted C.ready C.work C.out C.posted crew.old work.now }
    ensures journal { JournalStands (batch_of every work.now inputs limits faults) (journal_in result) }
    ensures report { IfOk result (ReportsRun (batch_of every work.now inputs limits faults)) }
    ensures lines { OnOk result (Appends (O.written out.old) (O.written out.new) (printed (all_lines (batch_of every work.now inputs limits faults)))) }
    ensures partly { WritesRetired (batch_of every work.now inputs limits faults) (O.written out.old) (O.written out.new) (journal_in result) }
    ensures cause { HasRunCause (O.faults out.old) (O.faults out.new) result }
    ensures ready { C.ready crew.new }
    ensures work { C.work crew.new ≡ C.work crew.old }
    ensures posts { ArePosts (C.posted crew.new) (journal_in result) }
    ensures out { ¬ RanOut result → IsUntaken (C.out crew.new) (journal_in result) }
{
    let mut notes = NoNotes;
    let mut nobody = NeverSink::new();
    let run = BatchRun {
        work,
        recovery: Recovery::Rollback(every),
        layout,
        inputs,
        faults,
        limits,
    };
    drive_by(rt, alloc, run, crew, out, &mut notes, &mut nobody)
}
