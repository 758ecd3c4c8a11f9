// Carries a run out of which a log is kept, and writes its text, and the log while it goes on.
ghost use Rattle.std.specs.Prelude.{◌≡◌, ◌⊎◌, ℕ, List, length};
ghost use Rattle.crew.specs.Unposted.{IsUnposted};
ghost use Rattle.command_line.specs.declared.asked.Command.TheVariants as command;
ghost use Rattle.call_cases.specs.meaning.Answers.{Change, Fails, change_of};
ghost use Rattle.call_cases.specs.meaning.PlainText.{plain_ran, restarts_in};
ghost use Rattle.call_cases.specs.meaning.Texts.{run_text};
ghost use Rattle.call_cases.specs.meaning.Work.{ToDo};
ghost use Rattle.batch_calls.specs.inner.Logged.{IsLogged, LogsFor, stop_status};
ghost use Rattle.batch_calls.specs.inner.Planned.{IsPlanned, work_planned};
ghost use Rattle.batch_calls.specs.inner.Ran.{RunsIf, RanIf};

use crate::basis::Basis;
use crate::plan::Begins;
use crate::run::{put_tail, stopped};
use crate::texts::OUTPUT;
use call_cases::{Outcome, empty_journal, end_status};
use crew::Crew;
use engine::{EngineStop, Report, StopWhy, drive_noted};
use gp_base::{Sink, put_all};
use retirement_log::LogNotes;
use std::alloc::Global;
use std::thread::Threads;

// Runs what is planned, and writes the printed lines to `out`, and its log.
fn put_noted<R: Threads + Sync, C: Crew, O: Sink, L: Sink>(
    rt: &R,
    alloc: Global,
    basis: &Basis,
    begins: Begins,
    crew: &mut C,
    out: &mut O,
    log: &mut L,
) -> Result<Report, EngineStop>
    requires planned { IsPlanned basis.now.plan.now basis.now.work.now begins }
    requires unposted { IsUnposted C.ready C.work C.out C.posted crew.old basis.now.work.now }
    requires run { basis.now.plan.now.asked.command ≡ command.Log }
    ensures lines { let taken = change_of O.written O.faults out.old out.new in let logged = change_of L.written L.faults log.old log.new in
        RunsIf (Fails taken ⊎ Fails logged) (work_planned basis.now.plan.now begins) taken result }
    ensures log { IsLogged (work_planned basis.now.plan.now begins) (change_of L.written L.faults log.old log.new) result }
{
    let Begins {
        layout,
        inputs,
        faults,
        limits,
        ..
    } = begins;
    let mut notes = LogNotes::new(alloc);
    drive_noted(
        rt, alloc, basis.work, layout, inputs, faults, limits, crew, out, &mut notes, log,
    )
}

/// Runs what is planned with a crew to which nothing was posted, and writes the first line, the printed lines and the
/// tail, and to `log` a row for each position that retires.
pub fn put_logged<R: Threads + Sync, C: Crew, O: Sink, L: Sink>(
    rt: &R,
    alloc: Global,
    basis: &Basis,
    begins: Begins,
    crew: &mut C,
    out: &mut O,
    log: &mut L,
) -> Result<Report, EngineStop>
    requires planned { IsPlanned basis.now.plan.now basis.now.work.now begins }
    requires unposted { IsUnposted C.ready C.work C.out C.posted crew.old basis.now.work.now }
    requires run { basis.now.plan.now.asked.command ≡ command.Log }
    ensures text { let taken = change_of O.written O.faults out.old out.new in let logged = change_of L.written L.faults log.old log.new in
        let work = work_planned basis.now.plan.now begins in
        RanIf (Fails taken ⊎ Fails logged) work (run_text (plain_ran work) (restarts_in work) (length work.faults)) taken result }
    ensures log { IsLogged (work_planned basis.now.plan.now begins) (change_of L.written L.faults log.old log.new) result }
{
    match put_all(out, OUTPUT) {
        Ok(()) => {}
        Err(fault) => {
            drop(begins);
            return Err(stopped(fault, empty_journal(alloc)));
        }
    }
    let report = match put_noted(rt, alloc, basis, begins, crew, out, log) {
        Ok(report) => report,
        Err(stop) => return Err(stop),
    };
    match put_tail(alloc, basis, &report, out) {
        Ok(()) => Ok(report),
        Err(fault) => Err(stopped(fault, report.journal)),
    }
}

// The status of a stop.
fn stop_status(why: StopWhy) -> u8
    ensures { result ≡ stop_status why }
{
    match why {
        StopWhy::WriteFault => 8,
        StopWhy::OutOfMemory => 1,
    }
}

/// How a run ended of which a log was kept. No line tells why it stopped, since that would stand in the log.
pub fn outcome_logged(ran: Result<Report, EngineStop>) -> Outcome
    ensures { (work : ToDo) (text : List ℕ) (out log : Change) → RanIf (Fails out ⊎ Fails log) work text out ran → IsLogged work log ran →
        LogsFor work text out log result.status result.journal }
{
    match ran {
        Ok(report) => {
            let status = end_status(report.end);
            Outcome {
                status,
                journal: report.journal,
            }
        }
        Err(stop) => {
            let status = stop_status(stop.why);
            Outcome {
                status,
                journal: stop.journal,
            }
        }
    }
}
