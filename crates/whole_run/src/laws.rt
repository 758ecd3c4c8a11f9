// What holds between an engine's calls, each law on a function with an empty body.

ghost use Rattle.whole_run.specs.Laws.{TaskKeptLaw, SettledNumberLaw};

/// A task that is out stands after each event of its engine, until it is taken: so a driver in another crate may keep
/// tasks over any calls.
pub fn task_kept_law()
    ensures { TaskKeptLaw }
{}

/// A settle hands to control the number that the plain run finds in its register, whatever the faults.
pub fn settled_number_law()
    ensures { SettledNumberLaw }
{}
