// The rows of a log, from which a run goes on.

ghost use Rattle.std.specs.Prelude.{◌≡◌, ◌≤◌, length, IsTrue, Option, IfOk, IfErr};
ghost use Rattle.std.specs.Bool.{Decides};
ghost use Rattle.gp_base.specs.declared.limits.TheConstants.{MOST_FILE_BYTES};
ghost use Rattle.task_ast.specs.meaning.Run.{Run, plain_move};
ghost use Rattle.task_ast.specs.Plain.{Plain, opening};
ghost use Rattle.subthread.specs.Tasks.{program_in};
ghost use Rattle.retirement_log.specs.meaning.Rows.{Retirement};
ghost use Rattle.gp_resume.specs.inner.Course.{IsSuited, Stands, StandsAt};
ghost use Rattle.gp_resume.specs.meaning.Fitting.{least_bytes, FitsMove, replayed};
ghost use Rattle.gp_resume.specs.inner.Going.{Replays};
ghost use Rattle.gp_resume.specs.inner.RowsRead.{row_in};
ghost use Rattle.gp_resume.specs.Resuming.{AnswersLog};

use crate::course::{Course, ResumePlan, Step};
use crate::fitting::fits;
use crate::reading::{ends_no_line, row_at};
use crate::replay::replay;
use crate::row::LogRow;
use crate::stop::ResumeStop;
use gp_base::Text;
use std::alloc::{AllocError, Global};

/// How many rows a log has, and how many bytes the text has before what is to come.
#[derive(Clone, Copy, PartialEq, Eq)]
pub struct Logged {
    pub rows: u32,
    pub bytes: i64,
}

/// The bytes of the first line of the text, which come before those of all lines.
const FIRST_LINE: i64 = 7;

// Leaves what a row says, if it fits the subthread that begins next, where the text had at least so many bytes before,
// and tells whether it fits; a row doesn't where the run has ended. The error is that memory is out; nothing is said
// then of the course, nor where the row doesn't fit.
fn replay_row(
    alloc: Global,
    plan: &ResumePlan,
    course: &mut Course,
    least: i64,
    row: LogRow,
) -> Result<bool, AllocError>
    requires suits { IsSuited plan.now }
    requires stands { (x : Plain) × Stands plan.now x course.old }
    ensures fits { IfOk result (λ fits. (x : Run) (before : Option Retirement) → StandsAt plan.now x course.old → least ≡ least_bytes before
        → Decides fits (FitsMove (program_in plan.now.work.now) x (plain_move (program_in plan.now.work.now) plan.now.inputs.value plan.now.limits x) before (row_in row))) }
    ensures stands { IfOk result (λ fits. IsTrue fits → (x : Run) → StandsAt plan.now x course.old
        → StandsAt plan.now (replayed (program_in plan.now.work.now) plan.now.inputs.value plan.now.limits x (row_in row)) course.new) }
{
    let Step::Goes(begun) = course.next(alloc, plan)? else {
        return Ok(false);
    };
    if !fits(alloc, plan, course, &begun, least, &row)? {
        return Ok(false);
    }
    replay(alloc, plan, course, begun, row)?;
    Ok(true)
}

/// Leaves what the rows of a log say, of the first subthreads of a run. A row that is none, or does not fit, is the
/// error, or that memory is out.
pub fn replay_log(
    alloc: Global,
    plan: &ResumePlan,
    course: &mut Course,
    log: &Text,
) -> Result<Logged, ResumeStop>
    requires suits { IsSuited plan.now }
    requires short { length log.now ≤ MOST_FILE_BYTES }
    requires stands { Stands plan.now (opening (program_in plan.now.work.now) plan.now.inputs.value plan.now.limits) course.old }
    ensures answer { AnswersLog (program_in plan.now.work.now) plan.now.inputs.value plan.now.limits log.now result }
    ensures replays { IfOk result (λ logged. Replays plan.now log.now logged course.new) }
    ensures unwritten { IfErr result (λ stop. stop ≡ ResumeStop.WriteFault → ⊥) }
{
    let mut rest = log.as_slice();
    let mut logged = Logged { rows: 0, bytes: 0 };
    'replaying: loop {
        if ends_no_line(rest) {
            return Ok(logged);
        }
        let number = logged.rows + 1;
        let Some((row, later)) = row_at(alloc, rest)? else {
            return Err(ResumeStop::LogLine(number));
        };
        let bytes = row.bytes;
        let least = logged.bytes.max(FIRST_LINE);
        if !replay_row(alloc, plan, course, least, row)? {
            return Err(ResumeStop::LogFit(number));
        }
        logged = Logged {
            rows: number,
            bytes,
        };
        rest = later;
    }
}
