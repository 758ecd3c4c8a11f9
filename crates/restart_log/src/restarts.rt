// The lines of restarts.
ghost use Rattle.std.specs.Prelude.{◌≡◌, ◌++◌, OnOk};
ghost use Rattle.restart_log.specs.meaning.Tail.{redo_text, restart_line, restart_lines};

use crate::lines::{push_number, push_number_after};
use gp_base::{Pos, Restart};
use std::alloc::AllocError;

/// Appends the positions that are redone, each after a space.
pub fn push_redo(text: &mut Vec<u8>, redo: &[Pos]) -> Result<(), AllocError>
    ensures { OnOk result (text.new.items ≡ text.old.items ++ redo_text redo.now) }
{
    text.extend_from_slice(b" redo")?;
    for position in redo {
        push_number_after(text, b" ", position.0)?;
    }
    Ok(())
}

// Appends the line of a restart by its number.
fn push_restart(text: &mut Vec<u8>, number: u64, restart: &Restart) -> Result<(), AllocError>
    ensures { OnOk result (text.new.items ≡ text.old.items ++ restart_line number restart.now) }
{
    push_number(text, number)?;
    push_number_after(text, b": front ", restart.front.0)?;
    push_number_after(text, b" struck ", restart.struck.0)?;
    push_number_after(text, b" try ", restart.attempt)?;
    push_redo(text, restart.redo.as_slice())?;
    text.extend_from_slice(b"\n")
}

/// Appends the lines of restarts, numbered from 1.
pub fn push_restarts(text: &mut Vec<u8>, restarts: &[Restart]) -> Result<(), AllocError>
    ensures { OnOk result (text.new.items ≡ text.old.items ++ restart_lines 1 restarts.now) }
{
    for (at, restart) in restarts.iter().enumerate() {
        push_restart(text, at as u64 + 1, restart)?;
    }
    Ok(())
}
