// Why a run does not go on to its end.

ghost use Rattle.std.specs.Prelude.{◌≡◌};
ghost use Rattle.gp_resume.specs.declared.stop.ResumeStop.TheVariants as stop;

use std::alloc::AllocError;

/// Why a run does not go on from a log to its end: this row of the log, counted from 1, is none, or does not fit; the
/// output took no more; or memory is out.
#[derive(Clone, Copy, PartialEq, Eq)]
pub enum ResumeStop {
    LogLine(u32),
    LogFit(u32),
    WriteFault,
    OutOfMemory,
}

impl From<AllocError> for ResumeStop {
    ghost from_gives = { λ _ e. e ≡ stop.OutOfMemory };

    fn from(_error: AllocError) -> ResumeStop {
        ResumeStop::OutOfMemory
    }
}
