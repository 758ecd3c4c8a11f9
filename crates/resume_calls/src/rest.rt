// Writes the text that is still to come of a run that goes on.
ghost use Rattle.std.specs.Prelude.{◌≤◌, length};
ghost use Rattle.gp_base.specs.declared.limits.TheConstants.{MOST_FILE_BYTES};
ghost use Rattle.task_ast.specs.View.{plain_program};
ghost use Rattle.lock_checker.specs.Accepted.{program_of};
ghost use Rattle.crew.specs.Unposted.{IsUnposted};
ghost use Rattle.call_cases.specs.meaning.Answers.{change_of};
ghost use Rattle.resume_calls.specs.inner.Resting.{IsPlanOf, PutsFirst, PutsTail, Resumes};

use crate::plan::OpenedRun;
use call_cases::end_status;
use crew::Crew;
use gp_base::{Sink, Text};
use gp_resume::{PacedWork, ResumeStop, ends_no_line, put, resume_paced};
use lock_checker::Checked;
use reorder_list::Report;
use restart_log::tail_text;
use std::alloc::Global;
use std::thread::Threads;

/// The line before the printed lines.
const OUTPUT: &[u8] = b"output\n";

// Writes the first line, where the log has no row: where it has one, the line was written before.
fn put_first<O: Sink>(log: &Text, out: &mut O) -> Result<(), ResumeStop>
    ensures { PutsFirst log.now (change_of O.written O.faults out.old out.new) result }
{
    if !ends_no_line(log.as_slice()) {
        return Ok(());
    }
    put(out, OUTPUT)
}

// Writes what follows the printed lines.
fn put_tail<O: Sink>(
    alloc: Global,
    checked: &Checked,
    report: &Report,
    out: &mut O,
) -> Result<(), ResumeStop>
    ensures { PutsTail (plain_program (program_of checked.now)) report.now (change_of O.written O.faults out.old out.new) result }
{
    let tail = tail_text(alloc, checked, report)?;
    put(out, tail.as_slice())
}

/// Goes on with the run of a plan from the text of its log, by a crew to which nothing was posted, beside whose work stands
/// the table in which it notes the steps of its runs, and writes the text that is still to come: the first line where it
/// was not written before, the printed lines, and the tail. The answer is the status.
pub fn put_rest<R: Threads + Sync, C: Crew, O: Sink>(
    rt: &R,
    alloc: Global,
    paced: PacedWork<'_>,
    plan: OpenedRun,
    log: &Text,
    crew: &mut C,
    out: &mut O,
) -> Result<u8, ResumeStop>
    requires planned { IsPlanOf paced.work.now plan }
    requires short { length log.now ≤ MOST_FILE_BYTES }
    requires unposted { IsUnposted C.ready C.work C.out C.posted crew.old paced.work.now }
    ensures { Resumes (plain_program (program_of plan.checked)) plan.opening.inputs plan.opening.limits log.now (change_of O.written O.faults out.old out.new) result }
{
    let OpenedRun { checked, opening } = plan;
    match put_first(log, out) {
        Ok(()) => {}
        Err(stop) => return Err(stop),
    }
    let report = match resume_paced(rt, alloc, paced, opening, log, crew, out) {
        Ok((_, report)) => report,
        Err(stop) => return Err(stop),
    };
    match put_tail(alloc, &checked, &report, out) {
        Ok(()) => Ok(end_status(report.end)),
        Err(stop) => Err(stop),
    }
}
