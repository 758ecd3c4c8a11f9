// Laws of audits, each on a function with an empty body.
ghost use Rattle.call_cases.specs.meaning.Laws.{HasOneCase};
ghost use Rattle.audit_calls.specs.meaning.AuditCommands.{asking};
ghost use Rattle.audit_calls.specs.meaning.Laws.{TraceLaw};
ghost use Rattle.audit_calls.specs.TraceLaws.{TextLaw, LinesLaw, OrderLaw, WholeRunLaw};

/// A law: each call of `audit_run` has one case.
pub fn audit_case()
    ensures { HasOneCase asking }
{}

/// A law: the trace of each run that `gprs_run` or `gprs_run_pipe` made to its end is judged lawful.
pub fn trace_law()
    ensures { TraceLaw }
{}

/// A law: the trace of a journal is the text of its lines, which are lawful where the journal is; the steps of a plain run
/// say of dependence what its subthreads say.
pub fn journal_laws()
    ensures text { TextLaw }
    ensures lines { LinesLaw }
    ensures order { OrderLaw }
{}

/// A law: the trace of a whole run, as it is written, is read by an audit and answered lawful, or memory runs out.
pub fn whole_run_law()
    ensures { WholeRunLaw }
{}
