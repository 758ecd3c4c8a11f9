// Laws of the log, on a function with an empty body.
ghost use Rattle.retirement_log.specs.Laws.{CountLaw, BytesLaw};

/// Each position of a run has a row in the log, which says how many bytes the text of the run has up to the end of the
/// lines of that position.
pub fn log_laws()
    ensures count { CountLaw }
    ensures bytes { BytesLaw }
{}
