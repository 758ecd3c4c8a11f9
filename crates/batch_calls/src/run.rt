// Carries a run over a journal out, and writes its text and its trace.
ghost use Rattle.std.specs.Prelude.{◌≡◌, ℕ, List, [], length, IfOk, OnOk, OnErr, Option, if◌then◌else◌};
ghost use Rattle.std.specs.Io.KnownBytes.{Appends};
ghost use Rattle.gp_base.specs.meaning.Sinks.{AppendsPrefix, HasCause};
ghost use Rattle.task_ast.specs.View.{plain_program};
ghost use Rattle.lock_checker.specs.Accepted.{program_of};
ghost use Rattle.crew.specs.Unposted.{IsUnposted};
ghost use Rattle.restart_log.specs.meaning.Trace.{trace_text};
ghost use Rattle.command_line.specs.declared.asked.Command.TheVariants as command;
ghost use Rattle.command_line.specs.declared.asked.Asked.{Asked};
ghost use Rattle.call_cases.specs.meaning.Answers.{Change, change_of};
ghost use Rattle.call_cases.specs.Answers.{PutFor, unwritten};
ghost use Rattle.call_cases.specs.meaning.PlainText.{plain_ran, restarts_in};
ghost use Rattle.call_cases.specs.meaning.RunCommands.{end_status};
ghost use Rattle.call_cases.specs.meaning.Texts.{run_text, run_soak};
ghost use Rattle.call_cases.specs.meaning.Work.{ToDo};
ghost use Rattle.batch_calls.specs.inner.Planned.{IsPlanned, Carries, work_planned};
ghost use Rattle.batch_calls.specs.inner.Ran.{RanFor, RunsWork, EndsFor, StopsWith, TraceEnds, WritesLines, why_of, fault_of, told_tail, told_soak};
ghost use Rattle.batch_calls.specs.inner.Ways.{Writes};

use crate::basis::{Basis, Output};
use crate::logged::{outcome_logged, put_logged};
use crate::plan::Begins;
use crate::texts::OUTPUT;
use call_cases::{
    OUT_OF_MEMORY, Outcome, Tool, WRITE_FAULT, empty_journal, end_status, end_with, tell_line,
};
use command_line::Soak;
use crew::{Crew, InlineCrew};
use engine::{EngineStop, Report, StopWhy, drive};
use gp_base::{Gate, Journal, NeverSink, Pos, Seq, Sink, SinkFault, Text, put_all};
use gp_checkpoint::ckpt_drive;
use restart_log::{is_soak_text, is_tail_text, soak_text, tail_text, trace_text};
use std::alloc::{AllocError, Global};
use std::thread::Threads;
use subthread::Recheck;
use whole_run::Recovery;

fn why_of(fault: SinkFault) -> StopWhy
    ensures { result ≡ why_of fault }
{
    match fault {
        SinkFault::Failed => StopWhy::WriteFault,
        SinkFault::OutOfMemory => StopWhy::OutOfMemory,
    }
}

/// A run that stopped at a fault of the output, with what was done before.
pub fn stopped(fault: SinkFault, journal: Journal) -> EngineStop
    ensures why { result.why ≡ why_of fault }
    ensures journal { result.journal ≡ journal }
{
    let why = why_of(fault);
    EngineStop { why, journal }
}

// Tells why a call stopped, and answers the status of that. Where the recheck stopped it, the line of that is left to the
// caller of the top call, which has the recheck.
fn stop_with<E: Sink>(err: &mut E, why: StopWhy, recheck: &Recheck) -> u8
    ensures { StopsWith why (change_of E.written E.faults err.old err.new) result }
{
    match why {
        StopWhy::WriteFault => tell_line(Tool::Gprs, err, WRITE_FAULT, 8),
        StopWhy::OutOfMemory if recheck.has_stopped() => 1,
        StopWhy::OutOfMemory => tell_line(Tool::Gprs, err, OUT_OF_MEMORY, 1),
    }
}

// The position at which a fault of the text is noted that follows all lines: the last one.
fn last_of(report: &Report) -> Pos {
    Pos(report.subthreads.saturating_sub(1))
}

// What follows the printed lines; where walks are compared, it is made twice. The error is that memory is out, or that the
// two texts differ, which is noted.
fn tail_of(alloc: Global, basis: &Basis, report: &Report) -> Result<Text, AllocError>
    ensures { IfOk result (λ text. text ≡ told_tail (plain_program (program_of basis.now.plan.now.checked)) report.now) }
{
    let checked = &basis.plan.checked;
    let recheck = &basis.work.recheck;
    let mut tail = tail_text(alloc, checked, report)?.into_vec();
    if !recheck.is_on() {
        return Ok(Seq::from_vec(tail));
    }
    recheck.disturb_text(&mut tail);
    if is_tail_text(alloc, &tail, checked, report)? {
        return Ok(Seq::from_vec(tail));
    }
    recheck.note_damaged(last_of(report));
    Err(AllocError)
}

// The summary of a batch that the program made; where walks are compared, it is made twice, as `tail_of` does.
fn summary_of(
    alloc: Global,
    recheck: &Recheck,
    soak: Soak,
    report: &Report,
) -> Result<Text, AllocError>
    ensures { IfOk result (λ text. text ≡ told_soak soak report.now) }
{
    let (moves, start) = (soak.moves, soak.start);
    let mut summary = soak_text(alloc, moves, start, report)?.into_vec();
    if !recheck.is_on() {
        return Ok(Seq::from_vec(summary));
    }
    recheck.disturb_text(&mut summary);
    if is_soak_text(alloc, &summary, moves, start, report)? {
        return Ok(Seq::from_vec(summary));
    }
    recheck.note_damaged(last_of(report));
    Err(AllocError)
}

/// Writes what follows the printed lines.
pub fn put_tail<O: Sink>(
    alloc: Global,
    basis: &Basis,
    report: &Report,
    out: &mut O,
) -> Result<(), SinkFault>
    ensures all { OnOk result (Appends (O.written out.old) (O.written out.new) (told_tail (plain_program (program_of basis.now.plan.now.checked)) report.now)) }
    ensures prefix { OnErr result (AppendsPrefix (O.written out.old) (O.written out.new) (told_tail (plain_program (program_of basis.now.plan.now.checked)) report.now)) }
    ensures cause { HasCause (O.faults out.old) (O.faults out.new) result }
{
    let tail = tail_of(alloc, basis, report)?;
    put_all(out, tail.as_slice())
}

// Writes the summary of a batch that the program made.
fn put_summary<O: Sink>(
    alloc: Global,
    recheck: &Recheck,
    soak: Soak,
    report: &Report,
    out: &mut O,
) -> Result<(), SinkFault>
    ensures all { OnOk result (Appends (O.written out.old) (O.written out.new) (told_soak soak report.now)) }
    ensures prefix { OnErr result (AppendsPrefix (O.written out.old) (O.written out.new) (told_soak soak report.now)) }
    ensures cause { HasCause (O.faults out.old) (O.faults out.new) result }
{
    let summary = summary_of(alloc, recheck, soak, report)?;
    put_all(out, summary.as_slice())
}

// Runs what is planned with a crew to which nothing was posted, and writes the printed lines. The answer is how the
// run went, or how it stopped.
fn put_lines<R: Threads + Sync, C: Crew, O: Sink>(
    rt: &R,
    alloc: Global,
    basis: &Basis,
    begins: Begins,
    crew: &mut C,
    out: &mut O,
) -> Result<Report, EngineStop>
    requires planned { IsPlanned basis.now.plan.now basis.now.work.now begins }
    requires unposted { IsUnposted C.ready C.work C.out C.posted crew.old basis.now.work.now }
    ensures { RunsWork (work_planned basis.now.plan.now begins) (change_of O.written O.faults out.old out.new) result }
{
    let Begins {
        recovery,
        layout,
        inputs,
        faults,
        limits,
    } = begins;
    let code = basis.work;
    match recovery {
        Recovery::Selective => drive(rt, alloc, code, layout, inputs, faults, limits, crew, out),
        Recovery::Rollback(every) => ckpt_drive(
            rt, alloc, code, layout, inputs, faults, limits, every, crew, out,
        ),
    }
}

// Runs what is planned with such a crew, and writes the first line, the printed lines, and the tail.
fn put_run<R: Threads + Sync, C: Crew, O: Sink>(
    rt: &R,
    alloc: Global,
    basis: &Basis,
    begins: Begins,
    crew: &mut C,
    out: &mut O,
) -> Result<Report, EngineStop>
    requires planned { IsPlanned basis.now.plan.now basis.now.work.now begins }
    requires unposted { IsUnposted C.ready C.work C.out C.posted crew.old basis.now.work.now }
    requires lines { WritesLines basis.now.plan.now.asked.command }
    ensures { let work = work_planned basis.now.plan.now begins in
        RanFor work (run_text (plain_ran work) (restarts_in work) (length work.faults)) (change_of O.written O.faults out.old out.new) result }
{
    match put_all(out, OUTPUT) {
        Ok(()) => {}
        Err(fault) => {
            drop(begins);
            return Err(stopped(fault, empty_journal(alloc)));
        }
    }
    let report = match put_lines(rt, alloc, basis, begins, crew, out) {
        Ok(report) => report,
        Err(stop) => return Err(stop),
    };
    match put_tail(alloc, basis, &report, out) {
        Ok(()) => Ok(report),
        Err(fault) => Err(stopped(fault, report.journal)),
    }
}

// Runs a batch that the program made, whose lines nobody reads, and writes its summary.
fn put_soak<R: Threads + Sync, C: Crew, O: Sink>(
    rt: &R,
    alloc: Global,
    basis: &Basis,
    begins: Begins,
    soak: Soak,
    crew: &mut C,
    out: &mut O,
) -> Result<Report, EngineStop>
    requires planned { IsPlanned basis.now.plan.now basis.now.work.now begins }
    requires unposted { IsUnposted C.ready C.work C.out C.posted crew.old basis.now.work.now }
    requires run { basis.now.plan.now.asked.command ≡ command.Soak soak }
    ensures { let work = work_planned basis.now.plan.now begins in
        RanFor work (run_soak soak (plain_ran work) (restarts_in work) (length work.faults)) (change_of O.written O.faults out.old out.new) result }
{
    let mut nobody = NeverSink::new();
    let report = match put_lines(rt, alloc, basis, begins, crew, &mut nobody) {
        Ok(report) => report,
        Err(stop) => return Err(stop),
    };
    match put_summary(alloc, &basis.work.recheck, soak, &report, out) {
        Ok(()) => Ok(report),
        Err(fault) => Err(stopped(fault, report.journal)),
    }
}

// Writes the trace of a journal, where one is asked for, and answers the status that is due. It is 8 where the write
// fails, and 1 where memory runs out, whose line is written where there is none to make the trace.
fn put_trace<E: Sink>(alloc: Global, is_traced: bool, journal: &Journal, err: &mut E, due: u8) -> u8
    ensures { TraceEnds due (if is_traced then trace_text journal.now else []) (change_of E.written E.faults err.old err.new) result }
{
    if !is_traced {
        return due;
    }
    match trace_text(alloc, journal) {
        Ok(trace) => end_with(err, trace.as_slice(), due),
        Err(_) => tell_line(Tool::Gprs, err, OUT_OF_MEMORY, 1),
    }
}

// How a run ended that was carried out, whose trace is written, or one that stopped, whose line is.
fn outcome_of<E: Sink>(
    alloc: Global,
    is_traced: bool,
    recheck: &Recheck,
    ran: Result<Report, EngineStop>,
    err: &mut E,
) -> Outcome
    ensures { (work : ToDo) (text : List ℕ) (out : Change) → RanFor work text out ran →
        EndsFor work text (if is_traced then trace_text result.journal else []) out (change_of E.written E.faults err.old err.new) result.status result.journal }
{
    match ran {
        Ok(report) => {
            let due = end_status(report.end);
            let status = put_trace(alloc, is_traced, &report.journal, err, due);
            Outcome {
                status,
                journal: report.journal,
            }
        }
        Err(stop) => {
            let status = stop_with(err, stop.why, recheck);
            Outcome {
                status,
                journal: stop.journal,
            }
        }
    }
}

/// Runs what is planned over a journal with a crew to which nothing was posted, and writes its text, and the trace of
/// its run where one is asked for. Where the output fails, the line of that is written to `err`. A run whose log is
/// kept writes nothing but the log to `err`.
pub fn carry_by<R: Threads + Sync, C: Crew, O: Sink, E: Sink>(
    rt: &R,
    alloc: Global,
    basis: &Basis,
    begins: Begins,
    crew: &mut C,
    out: &mut O,
    err: &mut E,
) -> Outcome
    requires planned { IsPlanned basis.now.plan.now basis.now.work.now begins }
    requires writes { Writes basis.now.plan.now.asked.command basis.now.output }
    requires unposted { IsUnposted C.ready C.work C.out C.posted crew.old basis.now.work.now }
    ensures { Carries basis.now.plan.now.asked (work_planned basis.now.plan.now begins) (change_of O.written O.faults out.old out.new) (change_of E.written E.faults err.old err.new) result.status result.journal }
{
    match basis.output {
        Output::Lines => {
            let ran = put_run(rt, alloc, basis, begins, crew, out);
            outcome_of(alloc, basis.plan.asked.trace, &basis.work.recheck, ran, err)
        }
        Output::Summary(soak) => {
            let ran = put_soak(rt, alloc, basis, begins, soak, crew, out);
            outcome_of(alloc, basis.plan.asked.trace, &basis.work.recheck, ran, err)
        }
        Output::LinesAndLog => {
            let ran = put_logged(rt, alloc, basis, begins, crew, out, err);
            outcome_logged(ran)
        }
    }
}

// The fault of the output at which a run stopped.
fn fault_of(why: StopWhy) -> SinkFault
    ensures { result ≡ fault_of why }
{
    match why {
        StopWhy::WriteFault => SinkFault::Failed,
        StopWhy::OutOfMemory => SinkFault::OutOfMemory,
    }
}

/// Runs what is planned in the calling thread, and writes the text of its run. The answer is the status; no journal
/// is told.
pub fn put_untold<R: Threads + Sync, O: Sink, G: Gate>(
    rt: &R,
    alloc: Global,
    basis: &Basis,
    begins: Begins,
    out: &mut O,
    gate: &G,
) -> Result<u8, SinkFault>
    requires planned { IsPlanned basis.now.plan.now basis.now.work.now begins }
    requires lines { WritesLines basis.now.plan.now.asked.command }
    ensures { let work = work_planned basis.now.plan.now begins in
        PutFor (run_text (plain_ran work) (restarts_in work) (length work.faults)) (end_status (plain_ran work).end) (change_of O.written O.faults out.old out.new) result }
{
    let mut crew = InlineCrew::new(alloc, basis.work, gate);
    let ran = put_run(rt, alloc, basis, begins, &mut crew, out);
    drop(crew);
    match ran {
        Ok(report) => Ok(end_status(report.end)),
        Err(stop) => Err(fault_of(stop.why)),
    }
}

/// How a run ended that did not begin, since memory was out.
pub fn unbegun<E: Sink>(alloc: Global, err: &mut E) -> Outcome
    ensures { (asked : Asked) (work : ToDo) (written : Option (List ℕ)) (faults : ℕ) →
        Carries asked work (unwritten written faults) (change_of E.written E.faults err.old err.new) result.status result.journal }
{
    let status = tell_line(Tool::Gprs, err, OUT_OF_MEMORY, 1);
    Outcome {
        status,
        journal: empty_journal(alloc),
    }
}
