// Laws of runs that go on, each on a function with an empty body.
ghost use Rattle.call_cases.specs.meaning.Laws.{HasOneCase};
ghost use Rattle.resume_calls.specs.meaning.Laws.{JoinedTextLaw};
ghost use Rattle.resume_calls.specs.meaning.ResumeCommands.{asking};

/// A law: each call of `resume_run` has one case.
pub fn resume_case()
    ensures { HasOneCase asking }
{}

/// A law: the text that a run writes when it goes on from the first bytes of its own log is the text of one thread, but
/// for the bytes up to the lines of the last row.
pub fn joined_text()
    ensures { JoinedTextLaw }
{}
