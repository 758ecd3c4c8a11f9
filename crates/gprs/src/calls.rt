// Does what words ask for by the top call that takes them.
ghost use Rattle.std.specs.Prelude.{◌≡◌, IfOk, OnErr};
ghost use Rattle.gp_base.specs.declared.journal.Journal.{Journal};
ghost use Rattle.command_line.specs.meaning.Words.{texts};
ghost use Rattle.call_cases.specs.meaning.Answers.{change_of};
ghost use Rattle.resume_calls.specs.meaning.ResumeCommands as resume;
ghost use Rattle.call_cases.specs.meaning.Headline.{Headline};
ghost use Rattle.gprs.specs.meaning.Choice.{top_call};
ghost use Rattle.gprs.specs.meaning.Promises.{Promised};

use crate::choice::{TopCall, call_of};
use audit_calls::audit_run;
use batch_calls::{ckpt_run, gprs_run, gprs_run_pipe, log_run};
use call_cases::Outcome;
use gp_base::{FreeGate, Shelf, Sink};
use resume_calls::resume_run;
use std::alloc::AllocError;
use std::sync::{Arc, Wait};
use std::thread::Threads;

// Goes on from a log. What that is promised to do stands here again, so that no other call can stand in its place.
fn resumed<R: Threads + Sync + AllocGlobal, H: Shelf, O: Sink, E: Sink>(
    rt: &R,
    words: &[String],
    shelf: &mut H,
    out: &mut O,
    err: &mut E,
) -> Outcome
    ensures headline { Headline resume.commands (record {
      words = texts words.now;
      files = H.files shelf.old;
      failed = H.failed shelf.old;
      failed' = H.failed shelf.new;
      out = change_of O.written O.faults out.old out.new;
      err = change_of E.written E.faults err.old err.new;
      status = result.status;
      journal = result.journal;
    }) }
{
    resume_run(rt, words, shelf, out, err, &FreeGate)
}

/// Does what the words ask for by the top call that takes them, and answers the status. The error is that memory was
/// out before that call; then nothing was done.
pub fn status_of<
    R: Threads + Wait + Clone + Send + Sync + Drop + AllocGlobal + 'static,
    H: Shelf,
    O: Sink,
    E: Sink,
>(rt: &R, words: &[String], shelf: &mut H, out: &mut O, err: &mut E) -> Result<u8, AllocError>
    ensures promised { IfOk result (λ status. (journal : Journal) × Promised (top_call (texts words.now)) (record {
      words = texts words.now;
      files = H.files shelf.old;
      failed = H.failed shelf.old;
      failed' = H.failed shelf.new;
      out = change_of O.written O.faults out.old out.new;
      err = change_of E.written E.faults err.old err.new;
      status = status;
      journal = journal;
    })) }
    ensures unbegun { OnErr result ((shelf.new ≡ shelf.old) × (out.new ≡ out.old) × (err.new ≡ err.old)) }
{
    match call_of(rt.alloc(), words)? {
        TopCall::Run => Ok(gprs_run(rt, words, shelf, out, err, &FreeGate).status),
        TopCall::Pipe => {
            let gate = Arc::new(rt.alloc(), FreeGate)?;
            Ok(gprs_run_pipe(rt, words, shelf, out, err, &gate).status)
        }
        TopCall::Audit => Ok(audit_run(rt, words, shelf, out, err, &FreeGate).status),
        TopCall::Ckpt => Ok(ckpt_run(rt, words, shelf, out, err, &FreeGate).status),
        TopCall::Log => Ok(log_run(rt, words, shelf, out, err, &FreeGate).status),
        TopCall::Resume => Ok(resumed(rt, words, shelf, out, err).status),
    }
}
