// The top call whose workers may last, and which may wait for them.
ghost use Rattle.std.specs.Prelude.{◌≡◌, IfOk, IfSome};
ghost use Rattle.std.specs.Arc.{arc_value};
ghost use Rattle.task_ast.specs.View.{plain_program};
ghost use Rattle.lock_checker.specs.Accepted.{program_of};
ghost use Rattle.crew.specs.Unposted.{IsUnposted};
ghost use Rattle.command_line.specs.meaning.Words.{texts, asked_waiting};
ghost use Rattle.subthread.specs.meaning.Flaws.{Spares};
ghost use Rattle.call_cases.specs.meaning.Answers.{change_of};
ghost use Rattle.call_cases.specs.Decided.{IsSound, MayRun, work_of};
ghost use Rattle.call_cases.specs.meaning.Headline.{Headline, ReadsNothing};
ghost use Rattle.batch_calls.specs.meaning.WaitingCommands.{commands};
ghost use Rattle.batch_calls.specs.inner.Planned.{IsPlanned, Carries, work_planned};
ghost use Rattle.batch_calls.specs.inner.Ways.{Writes};

use crate::basis::{Basis, Output, Way, way_of};
use crate::crews::carry_out;
use crate::plan::{AskedRun, Begins, plan_of};
use crate::reading::{read_by, reading_under};
use crate::run::{carry_by, unbegun};
use call_cases::{Outcome, Reading, Request, refused_outcome};
use command_line::{CrewKind, read_waiting_words};
use crew::Crew;
use gp_base::{Gate, Shelf, Sink};
use pipe_crew::PipeCrew;
use std::alloc::{AllocError, Global};
use std::sync::{Arc, Wait};
use std::thread::Threads;
use subthread::{Recheck, Work};

// The code of a request's program, to be shared, the plan of its run, and what that begins with. The error is that
// memory is out.
fn shared_plan_of(
    alloc: Global,
    request: Request,
) -> Result<(Arc<Work>, AskedRun, Begins), AllocError>
    requires { IsSound request.asked (plain_program (program_of request.checked)) request.inputs }
    ensures plan { IfOk result (λ made. IsPlanned made.1 (arc_value made.0) made.2) }
    ensures work { IfOk result (λ made. work_planned made.1 made.2 ≡ work_of request) }
    ensures asked { IfOk result (λ made. made.1.asked ≡ request.asked) }
{
    let (work, plan, begins) = plan_of(alloc, request, Recheck::once())?;
    match Arc::new(alloc, work) {
        Ok(work) => Ok((work, plan, begins)),
        Err(refused) => {
            drop(refused);
            drop(plan);
            drop(begins);
            Err(AllocError)
        }
    }
}

// Lasting workers to whom nothing was posted. The error is that memory is out.
fn lasting<
    'a,
    R: Threads + Wait + Clone + Send + Sync + Drop + 'static,
    G: Gate + Send + Drop + 'static,
>(
    rt: &R,
    alloc: Global,
    work: &'a Arc<Work>,
    workers: u32,
    gate: &Arc<G>,
) -> Result<PipeCrew<'a, R, G>, AllocError>
    ensures { IfOk result (λ crew. let told = ⟦<PipeCrew<'a, R, G> as Crew>⟧ in
        IsUnposted told.ready told.work told.out told.posted crew (arc_value work.now)) }
{
    let theirs = rt.clone()?;
    PipeCrew::new(alloc, theirs, work, workers, gate)
}

// Runs what is planned, whose code is shared so, by lasting workers.
fn carry_lasting<
    R: Threads + Wait + Clone + Send + Sync + Drop + AllocGlobal + 'static,
    O: Sink,
    E: Sink,
    G: Gate + Send + Drop + 'static,
>(
    rt: &R,
    work: &Arc<Work>,
    basis: &Basis,
    begins: Begins,
    out: &mut O,
    err: &mut E,
    gate: &Arc<G>,
) -> Outcome
    requires work { basis.now.work.now ≡ arc_value work.now }
    requires planned { IsPlanned basis.now.plan.now basis.now.work.now begins }
    requires writes { Writes basis.now.plan.now.asked.command basis.now.output }
    ensures { Carries basis.now.plan.now.asked (work_planned basis.now.plan.now begins) (change_of O.written O.faults out.old out.new) (change_of E.written E.faults err.old err.new) result.status result.journal }
{
    let alloc = rt.alloc();
    match lasting(rt, alloc, work, basis.plan.asked.workers, gate) {
        Ok(mut crew) => {
            let outcome = carry_by(rt, alloc, basis, begins, &mut crew, out, err);
            drop(crew);
            outcome
        }
        Err(_) => {
            drop(begins);
            unbegun(alloc, err)
        }
    }
}

// Plans what is requested over a journal, and runs it by lasting workers.
fn carry_shared<
    R: Threads + Wait + Clone + Send + Sync + Drop + AllocGlobal + 'static,
    O: Sink,
    E: Sink,
    G: Gate + Send + Drop + 'static,
>(rt: &R, request: Request, output: Output, out: &mut O, err: &mut E, gate: &Arc<G>) -> Outcome
    requires sound { MayRun request }
    requires writes { Writes request.asked.command output }
    ensures { Carries request.asked (work_of request) (change_of O.written O.faults out.old out.new) (change_of E.written E.faults err.old err.new) result.status result.journal }
{
    let alloc = rt.alloc();
    let (work, plan, begins) = match shared_plan_of(alloc, request) {
        Ok(made) => made,
        Err(_) => return unbegun(alloc, err),
    };
    let basis = Basis {
        plan: &plan,
        work: &work,
        output,
    };
    let outcome = carry_lasting(rt, &work, &basis, begins, out, err, gate);
    drop(plan);
    outcome
}

// Does what is requested, by lasting workers where these are asked for.
fn carry_waiting<
    R: Threads + Wait + Clone + Send + Sync + Drop + AllocGlobal + 'static,
    O: Sink,
    E: Sink,
    G: Gate + Send + Drop + 'static,
>(rt: &R, request: Request, out: &mut O, err: &mut E, gate: &Arc<G>) -> Outcome
    requires { MayRun request }
    ensures { Carries request.asked (work_of request) (change_of O.written O.faults out.old out.new) (change_of E.written E.faults err.old err.new) result.status result.journal }
{
    match way_of(request.asked.command) {
        Way::Journal(output) if request.asked.crew == CrewKind::Pipe => {
            carry_shared(rt, request, output, out, err, gate)
        }
        _ => carry_out(rt, rt.alloc(), request, Recheck::once(), out, err, &**gate).0,
    }
}

/// Does what the words ask for, as `gprs_run_pipe` does, with each subthread walked as the recheck says, which comes
/// back with what was seen. In the place of lasting workers, which wait, workers draw from boards. A run that the recheck
/// stops does so as where memory is out, but without a line of that.
pub fn run_rechecked<R: Threads + Sync + AllocGlobal, H: Shelf, O: Sink, E: Sink, G: Gate>(
    rt: &R,
    words: &[String],
    shelf: &mut H,
    recheck: Recheck,
    out: &mut O,
    err: &mut E,
    gate: &G,
) -> (Outcome, Recheck)
    requires spared { IfSome recheck Spares }
    ensures headline { Headline commands (record {
      words = texts words.now;
      files = H.files shelf.old;
      failed = H.failed shelf.old;
      failed' = H.failed shelf.new;
      out = change_of O.written O.faults out.old out.new;
      err = change_of E.written E.faults err.old err.new;
      status = result.0.status;
      journal = result.0.journal;
    }) }

    // The shelf is not read for words of no command, nor for a batch that the program makes itself.
    ensures unread { ReadsNothing commands (asked_waiting (texts words.now)) → shelf.new ≡ shelf.old }
{
    let alloc = rt.alloc();
    let reading = reading_under(&recheck);
    match read_by(alloc, read_waiting_words(alloc, words), shelf, reading) {
        Ok(request) => carry_out(rt, alloc, request, recheck, out, err, gate),
        Err(refusal) => (refused_outcome(alloc, refusal, err), recheck),
    }
}

/// Does what the words ask for, as `gprs_run` does, where `pipe` is the word of a crew too: its workers last as long as
/// the run, and the call waits for their runs. So it is promised to do the same where it returns. It does not wait for
/// the workers to end: after it has returned, threads may still finish boards that are in flight, and enter the gate
/// for that. What they come to is written nowhere.
pub fn gprs_run_pipe<
    R: Threads + Wait + Clone + Send + Sync + Drop + AllocGlobal + 'static,
    H: Shelf,
    O: Sink,
    E: Sink,
    G: Gate + Send + Drop + 'static,
>(rt: &R, words: &[String], shelf: &mut H, out: &mut O, err: &mut E, gate: &Arc<G>) -> Outcome
    ensures headline { Headline commands (record {
      words = texts words.now;
      files = H.files shelf.old;
      failed = H.failed shelf.old;
      failed' = H.failed shelf.new;
      out = change_of O.written O.faults out.old out.new;
      err = change_of E.written E.faults err.old err.new;
      status = result.status;
      journal = result.journal;
    }) }

    // The shelf is not read for words of no command, nor for a batch that the program makes itself.
    ensures unread { ReadsNothing commands (asked_waiting (texts words.now)) → shelf.new ≡ shelf.old }
{
    let alloc = rt.alloc();
    match read_by(
        alloc,
        read_waiting_words(alloc, words),
        shelf,
        Reading::Once,
    ) {
        Ok(request) => carry_waiting(rt, request, out, err, gate),
        Err(refusal) => refused_outcome(alloc, refusal, err),
    }
}
