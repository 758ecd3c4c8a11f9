// The counts of a run.
ghost use Rattle.std.specs.Prelude.{◌≡◌, ◌++◌, OnOk};
ghost use Rattle.restart_log.specs.meaning.Tail.{count_line, redone, counts_section};

use crate::lines::push_numbered_line;
use gp_base::Restart;
use std::alloc::AllocError;

// Appends a line of a name and a number.
fn push_count(text: &mut Vec<u8>, name: &[u8], number: u128) -> Result<(), AllocError>
    ensures { OnOk result (text.new.items ≡ text.old.items ++ count_line name.now number) }
{
    text.extend_from_slice(name)?;
    push_numbered_line(text, b" ", number)
}

// How many positions the restarts redo.
fn redone(restarts: &[Restart]) -> u128
    ensures { result ≡ redone restarts.now }
{
    let mut redone: u128 = 0;
    for restart in restarts {
        redone += restart.redo.len() as u128;
    }
    redone
}

/// Appends the counts of a run: its subthreads, its restarts, the positions that they redo, and the faults that struck
/// nothing.
pub fn push_counts(
    text: &mut Vec<u8>,
    subthreads: usize,
    restarts: &[Restart],
    unused: u32,
) -> Result<(), AllocError>
    ensures { OnOk result (text.new.items ≡ text.old.items ++ counts_section subthreads restarts.now unused) }
{
    text.extend_from_slice(b"counts\n")?;
    push_count(text, b"subthreads", subthreads as u128)?;
    push_count(text, b"restarts", restarts.len() as u128)?;
    push_count(text, b"redone", redone(restarts))?;
    push_count(text, b"unused", unused as u128)
}
