// A law of what is explained.
ghost use Rattle.call_cases.specs.meaning.Laws.{HasOneCase};
ghost use Rattle.explain_calls.specs.meaning.Commands.{asking};

/// A law: each call of `explain_run` has one case.
pub fn explain_case()
    ensures { HasOneCase asking }
{}
