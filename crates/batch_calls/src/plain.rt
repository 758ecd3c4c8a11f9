// Runs a program on one thread, or says that it is accepted, and writes the text of that.
ghost use Rattle.std.specs.Prelude.{◌≡◌, [], codes, IfOk};
ghost use Rattle.std.specs.Io.KnownBytes.{Appends};
ghost use Rattle.std.specs.Prelude.{OnOk, OnErr};
ghost use Rattle.gp_base.specs.meaning.Sinks.{HasCause, AppendsPrefix};
ghost use Rattle.task_ast.specs.View.{plain_program};
ghost use Rattle.lock_checker.specs.Accepted.{program_of};
ghost use Rattle.batch_calls.specs.inner.Steps.{ran_in, rest_text};
ghost use Rattle.call_cases.specs.meaning.RunCommands.{end_status};
ghost use Rattle.call_cases.specs.Decided.{work_of};
ghost use Rattle.call_cases.specs.meaning.Texts.{run_text};
ghost use Rattle.call_cases.specs.meaning.PlainText.{plain_ran};

use crate::texts::{OK, OUTPUT, printed};
use call_cases::{Request, end_status};
use gp_base::{Sink, SinkFault, put_all};
use lock_checker::Checked;
use one_thread::{PlainRun, run_plain};
use restart_log::plain_tail_text;
use std::alloc::Global;

// Writes what follows the first line: the printed lines and the tail, each as one piece.
fn put_rest<O: Sink>(
    alloc: Global,
    checked: &Checked,
    ran: &PlainRun,
    out: &mut O,
) -> Result<(), SinkFault>
    ensures all { OnOk result (Appends (O.written out.old) (O.written out.new) (rest_text (ran_in (plain_program (program_of checked.now)).heads ran.now))) }
    ensures prefix { OnErr result (AppendsPrefix (O.written out.old) (O.written out.new) (rest_text (ran_in (plain_program (program_of checked.now)).heads ran.now))) }
    ensures cause { HasCause (O.faults out.old) (O.faults out.new) result }
{
    let text = printed(alloc, ran.order.as_slice())?;
    put_all(out, &text)?;
    let subthreads = ran.order.len();
    let tail = plain_tail_text(alloc, checked, ran.end, ran.records.as_slice(), subthreads)?;
    put_all(out, tail.as_slice())?;
    Ok(())
}

/// Runs the program of a request on one thread, and writes the text of the run: the first line, the printed lines and
/// the tail, each as one piece. The answer is the status.
pub fn put_one<O: Sink>(alloc: Global, request: &Request, out: &mut O) -> Result<u8, SinkFault>
    ensures status { IfOk result (λ status. status ≡ end_status (plain_ran (work_of request.now)).end) }
    ensures all { OnOk result (Appends (O.written out.old) (O.written out.new) (run_text (plain_ran (work_of request.now)) [] 0)) }
    ensures prefix { OnErr result (AppendsPrefix (O.written out.old) (O.written out.new) (run_text (plain_ran (work_of request.now)) [] 0)) }
    ensures cause { HasCause (O.faults out.old) (O.faults out.new) result }
{
    put_all(out, OUTPUT)?;
    let ran = run_plain(
        alloc,
        &request.checked,
        &request.inputs,
        request.asked.limits,
    )?;
    let put = put_rest(alloc, &request.checked, &ran, out);
    let status = end_status(ran.end);
    drop(ran);
    put?;
    Ok(status)
}

/// Says that a program is accepted.
pub fn put_ok<O: Sink>(out: &mut O) -> Result<u8, SinkFault>
    ensures status { IfOk result (λ status. status ≡ 0) }
    ensures all { OnOk result (Appends (O.written out.old) (O.written out.new) (codes "ok\n")) }
    ensures prefix { OnErr result (AppendsPrefix (O.written out.old) (O.written out.new) (codes "ok\n")) }
    ensures cause { HasCause (O.faults out.old) (O.faults out.new) result }
{
    put_all(out, OK)?;
    Ok(0)
}
