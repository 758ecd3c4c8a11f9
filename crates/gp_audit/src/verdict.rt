// What an audit answers.
ghost use Rattle.std.specs.Prelude.{◌<◌, length, IfOk};
ghost use Rattle.gp_audit.specs.Steps.{dependence_by};
ghost use Rattle.gp_audit.specs.meaning.Verdicts.{IsVerdict};

use crate::line::TraceLine;
use crate::state::Audit;
use gp_base::{Faults, Seq};
use one_thread::Step;
use std::alloc::{AllocError, Global};

/// Whether lines are those of a lawful run: of a whole one; or the first of them with this number, from 1, are not; or
/// they are, and the run has not ended.
#[derive(Clone, Copy)]
pub enum Verdict {
    Lawful,
    Unlawful(u32),
    Incomplete,
}

/// Whether these are the lines of a lawful run with these steps and faults. The error is that memory is out.
pub fn audit(
    alloc: Global,
    order: &Seq<Step>,
    faults: &Faults,
    lines: &Seq<TraceLine>,
) -> Result<Verdict, AllocError>
    requires few_steps { length order.now < 4294967295 }
    requires few_lines { length lines.now < 4294967295 }
    ensures { IfOk result (IsVerdict (dependence_by order.now) faults.now.list lines.now) }
{
    let mut audit = Audit::new(alloc, order.as_slice(), faults.as_slice());
    let lines = lines.as_slice();
    for number in 0..lines.len() {
        if !audit.takes_line(&lines[number])? {
            return Ok(Verdict::Unlawful(number as u32 + 1));
        }
    }
    if audit.is_whole() {
        Ok(Verdict::Lawful)
    } else {
        Ok(Verdict::Incomplete)
    }
}
