// Runs, and the texts that they write.

use crate::answers::gives_by;
use crate::cases::{Case, RUN};
use std::alloc::{AllocError, Global};
use std::thread::Threads;

/// A case whose words are those after the command, over a program with empty files beside it.
pub const ALONE: Case<'static> = Case {
    words: "p.gp",
    ..RUN
};

/// The same for a case that is made while a test runs.
pub static BARE: Case<'static> = ALONE;

/// A run: its case, whose words are those after the command, what is told up to the restarts, these, and how many
/// subthreads there were, restarts, subthreads that were redone, and faults that struck nothing.
#[derive(Clone, Copy)]
pub struct Run<'a> {
    pub case: Case<'a>,
    pub told: &'a str,
    pub restarts: &'a str,
    pub counts: [u32; 4],
}

// The text that the run writes.
fn text_of(alloc: Global, run: &Run<'_>) -> Result<String, AllocError> {
    let (told, rows) = (run.told, run.restarts);
    let [issued, made, redone, unused] = run.counts;
    format!(in alloc;
        "output\n{told}restarts\n{rows}counts\nsubthreads {issued}\nrestarts {made}\nredone {redone}\nunused {unused}\n"
    )
}

/// The run comes to this by the command with these options, by each of these crews.
pub fn comes_to<R: Threads + Sync + AllocGlobal>(
    rt: &R,
    run: &Run<'_>,
    command: &str,
    options: &str,
    crews: &[&str],
) -> Result<bool, AllocError> {
    let alloc = rt.alloc();
    let words = format!(in alloc; "{command} {}{options}", run.case.words)?;
    let text = text_of(alloc, run)?;
    let is_told = gives_by(
        rt,
        &Case {
            words: words.as_str(),
            output: text.as_str(),
            ..run.case
        },
        crews,
    );
    drop(text);
    drop(words);
    is_told
}

/// Each of the runs comes to this by the command with these options, by each of these crews.
pub fn come_to<R: Threads + Sync + AllocGlobal>(
    rt: &R,
    runs: &[Run<'_>],
    command: &str,
    options: &str,
    crews: &[&str],
) -> Result<bool, AllocError> {
    for run in runs {
        if !comes_to(rt, run, command, options, crews)? {
            return Ok(false);
        }
    }
    Ok(true)
}
