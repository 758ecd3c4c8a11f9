// How a command is carried out, and what a run over a journal is carried out from.
ghost use Rattle.batch_calls.specs.inner.Ways.{IsWay};

use crate::plan::AskedRun;
use command_line::{Command, Soak};
use subthread::Work;

/// What a run over a journal writes, beside its trace: its lines; of a batch that the program made, whose lines nobody
/// reads, a summary; or its lines and a log of what retires.
#[derive(Clone, Copy)]
pub enum Output {
    Lines,
    Summary(Soak),
    LinesAndLog,
}

/// How a command is carried out: it only checks, it runs a program on one thread, or it runs one over a journal and
/// writes this.
#[derive(Clone, Copy)]
pub enum Way {
    Check,
    One,
    Journal(Output),
}

/// What a run is carried out from, beside what it begins with: its plan, the plan's program as code, and what is
/// written.
#[derive(Drop)]
pub struct Basis<'a> {
    pub plan: &'a AskedRun,
    pub work: &'a Work,
    pub output: Output,
}

/// How a command is carried out.
pub fn way_of(command: Command) -> Way
    ensures { IsWay command result }
{
    match command {
        Command::Run | Command::Ckpt(_) => Way::Journal(Output::Lines),
        Command::Soak(soak) => Way::Journal(Output::Summary(soak)),
        Command::Log => Way::Journal(Output::LinesAndLog),
        Command::One => Way::One,
        Command::Check => Way::Check,
    }
}
