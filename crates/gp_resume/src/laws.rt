// The laws of what goes on from a log, each on a function with an empty body.

ghost use Rattle.gp_resume.specs.Laws.{ReplayLaw, RestLaw, BytesLaw, JoinedLaw, OwnLaw, OneAnswerLaw, SomeAnswerLaw, OwnRowsLaw, OwnAnswerLaw};

/// After the first rows of the plain run's own log the run stands where the plain run does, and goes on as it does:
/// with the same subthreads, the same end, records and count.
pub fn replay_laws()
    ensures replay { ReplayLaw }
    ensures rest { RestLaw }
{}

/// The text up to the lines of these rows has as many bytes as the last row says, and with the text that is still to
/// come it is that of the run of one thread.
pub fn text_laws()
    ensures bytes { BytesLaw }
    ensures joined { JoinedLaw }
{}

/// Each log that a run of an accepted program wrote fits that program, and so does a first part of it: with such rows a
/// run goes on.
pub fn own_law()
    ensures own { OwnLaw }
{}

/// The bytes of a log come to one thing: to rows that fit, or to the first row that is none or does not fit. The rows
/// of a first part of a run's own log are the first of its own rows, and it has such rows where their numbers are of 64
/// bits: none of it is refused.
pub fn log_laws()
    ensures one { OneAnswerLaw }
    ensures some { SomeAnswerLaw }
    ensures own_rows { OwnRowsLaw }
    ensures own_answer { OwnAnswerLaw }
{}
