// A run by checkpoints whose subthreads are walked twice: what is rolled back is as it was left.
ghost use Rattle.std.specs.Prelude.{IfOk};
ghost use Rattle.subthread.specs.Tasks.{Suits};

use crate::disturbed::files_of;
use batch_calls::plan::Begins;
use batch_fixtures::programs::ADD;
use call_fixtures::plans::planned;
use crew::InlineCrew;
use gp_base::{FreeGate, MemSink, Seq};
use gp_checkpoint::{EngineStop, Report, ckpt_drive};
use std::alloc::Global;
use std::test::Fail;
use std::thread::Threads;
use subthread::{Recheck, Work};

// The code of the two threads that add to one total, and what their run begins with, where the fault strikes.
fn plan_of_adders(alloc: Global) -> Result<(Work, Begins), Fail>
    ensures { IfOk result (λ made. Suits made.0 made.1.layout made.1.inputs made.1.limits) }
{
    let files = files_of(alloc, ADD)?;
    match planned(
        alloc,
        "run p.gp --faults f.csv",
        files,
        Recheck::twice(alloc),
    )? {
        Some(plan) => Ok(plan),
        None => Err(Fail::from("the program is not to be run")),
    }
}

// Their run by the crew of the calling thread, with a checkpoint after each four subthreads.
fn rolled<R: Threads + Sync + AllocGlobal>(
    rt: &R,
    work: &Work,
    begins: Begins,
) -> Result<Report, EngineStop>
    requires { Suits work.now begins.layout begins.inputs begins.limits }
{
    let alloc = rt.alloc();
    let Begins {
        layout,
        inputs,
        faults,
        limits,
        ..
    } = begins;
    let mut out = MemSink::new(alloc, 1000, Seq::new(alloc));
    let mut crew = InlineCrew::new(alloc, work, &FreeGate);
    ckpt_drive(
        rt, alloc, work, layout, inputs, faults, limits, 4, &mut crew, &mut out,
    )
}

// Whether a run came to the total of the two threads by one rollback.
fn is_of_adders(ran: &Result<Report, EngineStop>) -> bool {
    match ran {
        Ok(report) => {
            report.records.as_slice() == [7].as_slice()
                && report.journal.restarts.len() == 1
                && report.subthreads == 11
        }
        Err(_) => false,
    }
}

#[test]
fn a_rollback_tells_nothing(rt: HostRuntime) -> Result<(), Fail> {
    let (work, begins) = plan_of_adders(rt.alloc())?;
    let ran = rolled(&rt, &work, begins);
    let is_right = is_of_adders(&ran);
    drop(ran);
    let is_told = work.recheck.differed() > 0 || work.recheck.has_stopped();
    drop(work);
    if is_right && !is_told {
        Ok(())
    } else {
        Err(Fail::from("the rollback came to something else"))
    }
}
