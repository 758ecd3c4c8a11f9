// A law of the case of a call.
ghost use Rattle.std.specs.Prelude.{ℕ, List, Option};
ghost use Rattle.command_line.specs.declared.asked.Asked.{Asked};
ghost use Rattle.call_cases.specs.meaning.RunCommands.{asking};
ghost use Rattle.call_cases.specs.meaning.Laws.{HasOneCase};

/// A law: each call of `gprs_run`, and of each other top call with its promises, has one case, whichever its words are.
pub fn one_case()
    ensures { (reading : List (List ℕ) → Option Asked) → HasOneCase (record asking { reading = reading }) }
{}
