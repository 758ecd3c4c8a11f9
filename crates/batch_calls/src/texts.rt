// The pieces of a text.
ghost use Rattle.std.specs.Prelude.{◌≡◌, IfOk};
ghost use Rattle.restart_log.specs.meaning.Lines.{printed};
ghost use Rattle.batch_calls.specs.inner.Steps.{lines_in};

use one_thread::Step;
use restart_log::push_lines;
use std::alloc::{AllocError, Global};

/// What is written for a program that is accepted.
pub const OK: &[u8] = b"ok\n";

/// The line before the printed lines.
pub const OUTPUT: &[u8] = b"output\n";

/// The bytes of the lines that these subthreads print.
pub fn printed(alloc: Global, order: &[Step]) -> Result<Vec<u8>, AllocError>
    ensures { IfOk result (λ text. text.items ≡ printed (lines_in order.now)) }
{
    let mut text = Vec::new(alloc);
    for step in order {
        push_lines(&mut text, &step.prints)?;
    }
    Ok(text)
}
