// A law of what is shown.
ghost use Rattle.call_cases.specs.meaning.Laws.{HasOneCase};
ghost use Rattle.view_calls.specs.meaning.Commands.{asking};

/// A law: each call of `view_run` has one case.
pub fn view_case()
    ensures { HasOneCase asking }
{}
