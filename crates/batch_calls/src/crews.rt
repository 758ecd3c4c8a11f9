// What is requested, carried out; what runs over a journal, by the crew that is asked for.
ghost use Rattle.std.specs.Prelude.{◌≡◌, ℕ, List, [], All, IfOk, IfSome};
ghost use Rattle.subthread.specs.Tasks.{Fits};
ghost use Rattle.subthread.specs.meaning.Flaws.{Spares};
ghost use Rattle.crew.specs.Out.{AreRuns};
ghost use Rattle.steal_crew.specs.Batches.{AreCounted};
ghost use Rattle.call_cases.specs.meaning.Answers.{Change, IsEmpty, change_of};
ghost use Rattle.call_cases.specs.Decided.{MayRun, work_of};
ghost use Rattle.call_cases.specs.Answers.{PutFor, RunEnds};
ghost use Rattle.call_cases.specs.meaning.RunCommands.{work_text, work_status};
ghost use Rattle.command_line.specs.declared.asked.Command.TheVariants as command;
ghost use Rattle.batch_calls.specs.inner.Planned.{IsPlanned, Carries, work_planned, without_faults};
ghost use Rattle.batch_calls.specs.inner.Ways.{Writes};

use crate::basis::{Basis, Output, Way, way_of};
use crate::plain::{put_ok, put_one};
use crate::plan::{Begins, plan_of};
use crate::run::{carry_by, put_untold, unbegun};
use call_cases::{Outcome, Request, empty_journal, plain_outcome};
use command_line::CrewKind;
use crew::{BatchCrew, InlineCrew, MeanSteps, run_wave};
use gp_base::{Faults, Gate, Seq, Sink, SinkFault};
use pipe_crew::run_board;
use std::alloc::{AllocError, Global};
use std::thread::Threads;
use steal_crew::{StealCrew, run_steal};
use subthread::{Done, Recheck, Task, Work};

// Runs what is planned by the crew that is asked for: in the calling thread, by waves of workers, by workers that steal
// from one another, or by workers that draw from boards. Lasting workers wait, which this call does not: in their place
// workers draw from boards.
fn carry_by_kind<R: Threads + Sync, O: Sink, E: Sink, G: Gate>(
    rt: &R,
    alloc: Global,
    basis: &Basis,
    begins: Begins,
    out: &mut O,
    err: &mut E,
    gate: &G,
) -> Outcome
    requires planned { IsPlanned basis.now.plan.now basis.now.work.now begins }
    requires writes { Writes basis.now.plan.now.asked.command basis.now.output }
    ensures { Carries basis.now.plan.now.asked (work_planned basis.now.plan.now begins) (change_of O.written O.faults out.old out.new) (change_of E.written E.faults err.old err.new) result.status result.journal }
{
    let work = basis.work;
    let workers = basis.plan.asked.workers;
    match basis.plan.asked.crew {
        CrewKind::One => {
            let mut crew = InlineCrew::new(alloc, work, gate);
            carry_by(rt, alloc, basis, begins, &mut crew, out, err)
        }
        CrewKind::Wave => {
            let mean_steps = MeanSteps::new(alloc, work);
            let run_all = |tasks: Seq<Task>| -> Result<Seq<Done>, AllocError>
                requires { All (Fits work.now) tasks }
                ensures { IfOk result (AreRuns work.entry.now tasks) }
            { run_wave(rt, alloc, work, gate, &mean_steps, workers, tasks) };
            let mut crew = BatchCrew::new(alloc, work, run_all);
            carry_by(rt, alloc, basis, begins, &mut crew, out, err)
        }
        CrewKind::Steal => {
            let mean_steps = MeanSteps::new(alloc, work);
            let run_all = |tasks: Seq<Task>| -> Result<(Seq<Done>, (u64, u64, u64)), AllocError>
                requires { All (Fits work.now) tasks }
                ensures { IfOk result (AreCounted work.entry.now tasks) }
            { run_steal(rt, alloc, work, gate, &mean_steps, workers, tasks) };
            let mut crew = StealCrew::new(alloc, work, run_all);
            carry_by(rt, alloc, basis, begins, &mut crew, out, err)
        }
        CrewKind::Board | CrewKind::Pipe => {
            let mean_steps = MeanSteps::new(alloc, work);
            let run_all = |tasks: Seq<Task>| -> Result<Seq<Done>, AllocError>
                requires { All (Fits work.now) tasks }
                ensures { IfOk result (AreRuns work.entry.now tasks) }
            {
                let (runs, _) = run_board(rt, alloc, work, gate, &mean_steps, workers, tasks)?;
                Ok(runs)
            };
            let mut crew = BatchCrew::new(alloc, work, run_all);
            carry_by(rt, alloc, basis, begins, &mut crew, out, err)
        }
    }
}

// A request without its faults.
fn without_faults(alloc: Global, request: Request) -> Request
    ensures work { work_of result ≡ without_faults (work_of request) }
    ensures asked { result.asked ≡ request.asked }
    ensures sound { MayRun request → MayRun result }
{
    let Request {
        asked,
        checked,
        inputs,
        ..
    } = request;
    Request {
        asked,
        checked,
        inputs,
        faults: Faults::none(alloc),
    }
}

// Runs a program by the crew of the calling thread, without faults, and writes the text of that. No journal is told. The
// recheck comes back with what was seen, or as a new one where no run began.
fn put_one_rechecked<R: Threads + Sync, O: Sink, G: Gate>(
    rt: &R,
    alloc: Global,
    request: Request,
    recheck: Recheck,
    out: &mut O,
    gate: &G,
) -> (Result<u8, SinkFault>, Recheck)
    requires sound { MayRun request }
    requires run { request.asked.command ≡ command.One }
    requires spared { IfSome recheck Spares }
    ensures { PutFor (work_text command.One (work_of request)) (work_status command.One (work_of request)) (change_of O.written O.faults out.old out.new) result.0 }
{
    let (work, plan, begins) = match plan_of(alloc, without_faults(alloc, request), recheck) {
        Ok(made) => made,
        Err(_) => return (Err(SinkFault::OutOfMemory), Recheck::once()),
    };
    let basis = Basis {
        plan: &plan,
        work: &work,
        output: Output::Lines,
    };
    let put = put_untold(rt, alloc, &basis, begins, out, gate);
    drop(plan);
    (put, work.into_recheck())
}

// How a run of a program on one thread ended whose subthreads were walked twice. Where the recheck stopped it, the line of
// that is left to the caller of the top call, which has the recheck.
fn outcome_of_one<E: Sink>(
    alloc: Global,
    recheck: &Recheck,
    put: Result<u8, SinkFault>,
    err: &mut E,
) -> Outcome
    ensures ends { (text : List ℕ) (due : ℕ) (out : Change) → PutFor text due out put → RunEnds text [] due out (change_of E.written E.faults err.old err.new) result.status }
    ensures empty { IsEmpty result.journal }
{
    match put {
        Err(SinkFault::OutOfMemory) if recheck.has_stopped() => Outcome {
            status: 1,
            journal: empty_journal(alloc),
        },
        put => plain_outcome(alloc, put, err),
    }
}

// Runs a program on one thread, and writes the text of that. Where its subthreads are to be walked twice, it runs
// over a journal that is not told.
fn carry_one<R: Threads + Sync, O: Sink, E: Sink, G: Gate>(
    rt: &R,
    alloc: Global,
    request: Request,
    recheck: Recheck,
    out: &mut O,
    err: &mut E,
    gate: &G,
) -> (Outcome, Recheck)
    requires sound { MayRun request }
    requires run { request.asked.command ≡ command.One }
    requires spared { IfSome recheck Spares }
    ensures { Carries request.asked (work_of request) (change_of O.written O.faults out.old out.new) (change_of E.written E.faults err.old err.new) result.0.status result.0.journal }
{
    if !recheck.is_on() {
        let put = put_one(alloc, &request, out);
        drop(request);
        return (plain_outcome(alloc, put, err), recheck);
    }
    let (put, recheck) = put_one_rechecked(rt, alloc, request, recheck, out, gate);
    let outcome = outcome_of_one(alloc, &recheck, put, err);
    (outcome, recheck)
}

/// Does what is requested, and writes its text, and the trace of its run where one is asked for. Each subthread is
/// walked as the recheck says, which comes back with what was seen, or as a new one where no run began. Where the output
/// fails, the line of that is written to `err`. Lasting workers wait, which this call does not: in their place workers
/// draw from boards.
pub fn carry_out<R: Threads + Sync, O: Sink, E: Sink, G: Gate>(
    rt: &R,
    alloc: Global,
    request: Request,
    recheck: Recheck,
    out: &mut O,
    err: &mut E,
    gate: &G,
) -> (Outcome, Recheck)
    requires sound { MayRun request }
    requires spared { IfSome recheck Spares }
    ensures { Carries request.asked (work_of request) (change_of O.written O.faults out.old out.new) (change_of E.written E.faults err.old err.new) result.0.status result.0.journal }
{
    match way_of(request.asked.command) {
        Way::Check => {
            drop(request);
            (plain_outcome(alloc, put_ok(out), err), recheck)
        }
        Way::One => carry_one(rt, alloc, request, recheck, out, err, gate),
        Way::Journal(output) => {
            let (work, plan, begins) = match plan_of(alloc, request, recheck) {
                Ok(made) => made,
                Err(_) => return (unbegun(alloc, err), Recheck::once()),
            };
            let basis = Basis {
                plan: &plan,
                work: &work,
                output,
            };
            let outcome = carry_by_kind(rt, alloc, &basis, begins, out, err, gate);
            drop(plan);
            (outcome, work.into_recheck())
        }
    }
}
