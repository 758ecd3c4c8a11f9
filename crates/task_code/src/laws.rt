// Laws of flat code, each the contract of a function with an empty body.

ghost use Rattle.task_code.specs.Jumps.{JumpsLaw};
ghost use Rattle.task_code.specs.Relation.{StepLaw, BodiesLaw, BeginsLaw, StartsLaw, FollowsLaw, RunLaw};

/// Code does at each place what the tree does at the point that the place stands for: steps, bodies, what a subthread
/// begins with, and starts. So the plain run on the code of a program is the plain run on its tree.
pub fn code_laws()
    ensures step { StepLaw }
    ensures bodies { BodiesLaw }
    ensures begins { BeginsLaw }
    ensures starts { StartsLaw }
    ensures follows { FollowsLaw }
    ensures run { RunLaw }
{}

/// Each jump of lowered code leads to an instruction of its task, or after the last one.
pub fn jumps_law()
    ensures { JumpsLaw }
{}
