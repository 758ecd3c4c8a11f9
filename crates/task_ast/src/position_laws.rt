// Laws of the positions of the plain run, each the contract of a function with an empty body.

ghost use Rattle.task_ast.specs.laws.Ends.{EndFromLaw, CountFromLaw, TablesFromLaw};
ghost use Rattle.task_ast.specs.laws.Positions.{StepLaw, CountsLaw, LeftLaw, ThreadsLaw, FoldBelowLaw, LinesLaw, LastLaw, ControlLaw};

/// Each subthread of the order leads from the run before its position to the run before the next one. Before a position
/// so many subthreads were issued, and a thread's last subthread leads to its next synchronisation and to its point.
pub fn step_laws()
    ensures step { StepLaw }
    ensures counts { CountsLaw }
    ensures left { LeftLaw }
{}

/// Threads are forked before they run or are joined, and numbered as they are forked.
pub fn threads_law()
    ensures { ThreadsLaw }
{}

/// The fold of all positions below one, none of them damaged, is the state before it, and a subthread's lines are those
/// of its effect on that fold.
pub fn fold_below_laws()
    ensures fold { FoldBelowLaw }
    ensures lines { LinesLaw }
{}

/// After the last subthread the run stands at its end, which is found there.
pub fn last_law()
    ensures { LastLaw }
{}

/// No value of a record reaches the order but by a settle: inputs with the same feeds, of which the settles find the
/// same values, give the same subthreads but for their lines, the same end, and before each position the same table and
/// the same points.
pub fn control_law()
    ensures { ControlLaw }
{}

/// A run from any table that turns lead to, with all known, ends by its rules within its limit, and its tables are
/// again such.
pub fn onward_laws()
    ensures end { EndFromLaw }
    ensures count { CountFromLaw }
    ensures tables { TablesFromLaw }
{}
