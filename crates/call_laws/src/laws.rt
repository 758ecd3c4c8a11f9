// Laws that join the top calls, each on a function with an empty body.
ghost use Rattle.call_laws.specs.meaning.Laws.{LoggedLaw};
ghost use Rattle.call_laws.specs.meaning.RunLaws.{RunExample, RunLaw};

/// A law: where the log that a call of `log_run` wrote stands in a file, or its first bytes, `resume` goes on from it, and what it writes
/// makes the text of one thread whole, with as many bytes of the first call's output as the last row of the log says.
pub fn logged_law()
    ensures { LoggedLaw }
{}

/// A law: a call of the words `run PROGRAM --faults LIST` publishes the batch that they name, as the theorem of `run` says.
pub fn run_law()
    ensures { RunLaw }
{}

/// A law: there is a batch, small as it is, of which the theorem of `run` says what is published, to the byte.
pub fn run_example()
    ensures { RunExample }
{}
