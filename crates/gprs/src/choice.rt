// Which of the top calls takes the words.
ghost use Rattle.std.specs.Prelude.{◌≡◌, IfOk};
ghost use Rattle.command_line.specs.meaning.Words.{texts};
ghost use Rattle.gprs.specs.meaning.Choice.{top_call};

use command_line::{begins_with, wants_pipe};
use std::alloc::{AllocError, Global};

/// The top calls: that which runs or checks a batch, the same by lasting workers, that which audits a trace, that which
/// runs a batch by checkpoints, that which keeps a log of a run, and that which goes on from such a log.
#[derive(Clone, Copy)]
pub enum TopCall {
    Run,
    Pipe,
    Audit,
    Ckpt,
    Log,
    Resume,
}

/// Which top call takes the words: that of an audit where the first word is `audit`, that by checkpoints where it is
/// `ckpt`, that with a log where it is `log`, that from a log where it is `resume`, that by lasting workers where the
/// words are those of a command with the crew `pipe`, and else, also for words of no command, the first. The error is
/// that memory is out.
pub fn call_of(alloc: Global, words: &[String]) -> Result<TopCall, AllocError>
    ensures { IfOk result (λ call. call ≡ top_call (texts words.now)) }
{
    if begins_with("audit", words) {
        return Ok(TopCall::Audit);
    }
    if begins_with("ckpt", words) {
        return Ok(TopCall::Ckpt);
    }
    if begins_with("log", words) {
        return Ok(TopCall::Log);
    }
    if begins_with("resume", words) {
        return Ok(TopCall::Resume);
    }
    if wants_pipe(alloc, words)? {
        return Ok(TopCall::Pipe);
    }
    Ok(TopCall::Run)
}
