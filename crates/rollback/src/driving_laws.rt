// The laws of what a run that rolls back reads off its stages, each on a function with an empty body.

ghost use Rattle.rollback.specs.Driving.{InitialDrivingLaw, DrivingEventLaw, DrivingJournalLaw, SafeLaw, CutLaw, WholeLaw, RestLaw, RestOnlyLaw, StruckLaw, StillOutLaw, RolledLaw, UnbegunLaw};

/// The later of two positions did not begin earlier, and all before a settle that was issued has retired: so it is
/// before the first event, after each that is allowed, and so after each journal that is lawful by blocks. Of positions
/// that are applied the last tells whether all are safe.
pub fn stage_laws()
    ensures initial { InitialDrivingLaw }
    ensures event { DrivingEventLaw }
    ensures journal { DrivingJournalLaw }
    ensures safe { SafeLaw }
{}

/// Where the multiples of a number and the settles are cuts, the cut of a position that has not retired is found with
/// no look at a settle but the oldest position, and whether the rest of its block is safe with none.
pub fn multiple_laws()
    ensures cut { CutLaw }
    ensures whole { WholeLaw }
    ensures rest { RestLaw }
    ensures rest_only { RestOnlyLaw }
{}

/// No rollback goes back to before what has retired. After it nothing is out that was not out before it, from its cut
/// on nothing is applied and no present attempt is posted, and before it all is as it was. Nor is anything applied from
/// the cut of a block on of which no present attempt is posted.
pub fn rolled_laws()
    ensures struck { StruckLaw }
    ensures out { StillOutLaw }
    ensures rolled { RolledLaw }
    ensures unbegun { UnbegunLaw }
{}
