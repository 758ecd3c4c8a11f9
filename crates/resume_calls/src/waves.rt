// The crew by which a run goes on.
ghost use Rattle.std.specs.Prelude.{◌≤◌, All, length, IfOk};
ghost use Rattle.gp_base.specs.declared.limits.TheConstants.{MOST_FILE_BYTES};
ghost use Rattle.task_ast.specs.View.{plain_program};
ghost use Rattle.lock_checker.specs.Accepted.{program_of};
ghost use Rattle.subthread.specs.Tasks.{Fits};
ghost use Rattle.crew.specs.Out.{AreRuns};
ghost use Rattle.call_cases.specs.meaning.Answers.{change_of};
ghost use Rattle.call_cases.specs.Decided.{IsSound, program_in};
ghost use Rattle.resume_calls.specs.inner.Resting.{IsPlanOf, Resumes};

use crate::plan::{OpenedRun, plan_of};
use crate::rest::put_rest;
use call_cases::Request;
use crew::{BatchCrew, MeanSteps, run_wave};
use gp_base::{Gate, Seq, Sink, Text};
use gp_resume::{PacedWork, ResumeStop};
use std::alloc::{AllocError, Global};
use std::thread::Threads;
use subthread::{Done, Task, Work};

/// How many workers a wave has at most.
const WORKERS: u32 = 4;

// Goes on with the run of a plan by waves of workers, and writes the text that is still to come. The answer is the
// status.
fn put_by_waves<R: Threads + Sync, O: Sink, G: Gate>(
    rt: &R,
    alloc: Global,
    work: &Work,
    plan: OpenedRun,
    log: &Text,
    out: &mut O,
    gate: &G,
) -> Result<u8, ResumeStop>
    requires planned { IsPlanOf work.now plan }
    requires short { length log.now ≤ MOST_FILE_BYTES }
    ensures { Resumes (plain_program (program_of plan.checked)) plan.opening.inputs plan.opening.limits log.now (change_of O.written O.faults out.old out.new) result }
{
    let mean_steps = MeanSteps::new(alloc, work);
    let run_all = |tasks: Seq<Task>| -> Result<Seq<Done>, AllocError>
        requires { All (Fits work.now) tasks }
        ensures { IfOk result (AreRuns work.entry.now tasks) }
    { run_wave(rt, alloc, work, gate, &mean_steps, WORKERS, tasks) };
    let mut crew = BatchCrew::new(alloc, work, run_all);
    let paced = PacedWork {
        work,
        mean_steps: &mean_steps,
    };
    put_rest(rt, alloc, paced, plan, log, &mut crew, out)
}

/// Goes on with what is requested from the text of its log, and writes the text that is still to come. The answer is
/// the status.
pub fn put_resumed<R: Threads + Sync, O: Sink, G: Gate>(
    rt: &R,
    alloc: Global,
    request: Request,
    log: &Text,
    out: &mut O,
    gate: &G,
) -> Result<u8, ResumeStop>
    requires sound { IsSound request.asked (program_in request) request.inputs }
    requires short { length log.now ≤ MOST_FILE_BYTES }
    ensures { Resumes (program_in request) request.inputs request.asked.limits log.now (change_of O.written O.faults out.old out.new) result }
{
    let (work, plan) = plan_of(alloc, request)?;
    put_by_waves(rt, alloc, &work, plan, log, out, gate)
}
