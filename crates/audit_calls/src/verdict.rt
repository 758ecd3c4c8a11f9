// The verdict on a trace, and how it is told.
ghost use Rattle.std.specs.Prelude.{◌≡◌, IfOk};
ghost use Rattle.gp_audit.specs.meaning.Answer.{verdict_status, verdict_text};
ghost use Rattle.call_cases.specs.meaning.Answers.{change_of};
ghost use Rattle.call_cases.specs.Answers.{PutFor};
ghost use Rattle.audit_calls.specs.inner.Trials.{IsShort, Judge, tried_in};

use crate::trial::Trial;
use gp_audit::{Verdict, audit, verdict_status, verdict_text};
use gp_base::{Sink, SinkFault, put_all};
use one_thread::run_plain;
use std::alloc::{AllocError, Global};

// The verdict on the lines, by the plain run of the program and by the faults. The error is that memory is out.
fn verdict_on(alloc: Global, trial: &Trial) -> Result<Verdict, AllocError>
    requires { IsShort trial.now }
    ensures { IfOk result (λ verdict. (judge : Judge) → verdict ≡ tried_in judge trial.now) }
{
    let request = &trial.request;
    let ran = run_plain(
        alloc,
        &request.checked,
        &request.inputs,
        request.asked.limits,
    )?;
    audit(alloc, &ran.order, &request.faults, &trial.lines)
}

// Writes the line that tells a verdict. The answer is the status.
fn tell<O: Sink>(alloc: Global, verdict: Verdict, out: &mut O) -> Result<u8, SinkFault>
    ensures { PutFor (verdict_text verdict) (verdict_status verdict) (change_of O.written O.faults out.old out.new) result }
{
    let text = verdict_text(alloc, verdict)?;
    put_all(out, text.as_slice())?;
    Ok(verdict_status(verdict))
}

/// Writes the line that tells the verdict on the lines of a trace. The answer is the status: 0 where they are those of
/// a whole lawful run, 9 where they are not lawful, and 10 where the run has not ended.
pub fn put_verdict<O: Sink>(alloc: Global, trial: &Trial, out: &mut O) -> Result<u8, SinkFault>
    requires { IsShort trial.now }
    ensures { (judge : Judge) → PutFor (verdict_text (tried_in judge trial.now)) (verdict_status (tried_in judge trial.now)) (change_of O.written O.faults out.old out.new) result }
{
    let verdict = verdict_on(alloc, trial)?;
    tell(alloc, verdict, out)
}
