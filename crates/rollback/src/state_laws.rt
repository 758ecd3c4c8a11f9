// The laws of what a run that rolls back holds, each on a function with an empty body.

ghost use Rattle.rollback.specs.States.{InitialHeldLaw, HeldEventLaw, HeldJournalLaw, OutLaw, CopyLaw, KeepsCopyLaw, BackLaw, LinesLaw, DrainedLaw, FinalLaw};

/// The data are the fold of what is applied, and the lines those that each position prints in it: before the first
/// event, after each that is allowed, and so after each journal that is lawful by blocks. What an attempt finds stays
/// while it is out.
pub fn held_laws()
    ensures initial { InitialHeldLaw }
    ensures event { HeldEventLaw }
    ensures journal { HeldJournalLaw }
    ensures out { OutLaw }
{}

/// Where all before a cut is applied, and nothing else, the data are a copy at the cut. It stays one until a rollback
/// goes back to before it, and a rollback goes back to the copy at its cut.
pub fn copy_laws()
    ensures copy { CopyLaw }
    ensures keeps { KeepsCopyLaw }
    ensures back { BackLaw }
{}

/// What retires has the lines of the plain run, and a complete journal leaves the plain run's state, whatever the cuts,
/// the order of its events and the faults.
pub fn plain_laws()
    ensures lines { LinesLaw }
    ensures drained { DrainedLaw }
    ensures state { FinalLaw }
{}
