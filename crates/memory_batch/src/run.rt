// A run over files in memory.
ghost use Rattle.std.specs.Prelude.{◌≡◌, [], Some, IfOk};
ghost use Rattle.gp_base.specs.Files.{HasDistinctNames};
ghost use Rattle.command_line.specs.meaning.Words.{texts};
ghost use Rattle.memory_batch.specs.Runs.{IsRunOver};

use crate::files::Files;
use batch_calls::gprs_run;
use gp_base::{FreeGate, Journal, MemShelf, MemSink, Seq, Text};
use std::alloc::AllocError;
use std::thread::Threads;

/// How a run ended: its status, and the bytes that it wrote to its output and to its error stream.
#[derive(Drop)]
pub struct Ended {
    pub status: u8,
    pub text: Text,
    pub told: Text,
}

/// Does what the words ask for, over these files, and answers the journal of the run beside its end.
pub fn run_over<R: Threads + Sync + AllocGlobal>(
    rt: &R,
    words: &[String],
    files: Files,
) -> Result<(Ended, Journal), AllocError>
    requires { HasDistinctNames files }
    ensures { IfOk result (λ ran. IsRunOver (texts words.now) files ran.0) }
{
    let alloc = rt.alloc();
    let mut shelf = MemShelf::new(alloc, files, Seq::new(alloc));
    let mut out = MemSink::new(alloc, usize::MAX, Seq::new(alloc));
    let mut err = MemSink::new(alloc, usize::MAX, Seq::new(alloc));
    let outcome = gprs_run(rt, words, &mut shelf, &mut out, &mut err, &FreeGate);
    let ended = Ended {
        status: outcome.status,
        text: Text::from_slice(alloc, out.written())?,
        told: Text::from_slice(alloc, err.written())?,
    };
    Ok((ended, outcome.journal))
}
