// The laws of folds, each on a function with an empty body.

ghost use Rattle.dependence.specs.Histories.{AfterLaw, HistoryLaw, UndoLaw};
ghost use Rattle.dependence.specs.Touching.{LocationLaw, KeepsLaw, RunKeepsLaw, LocksClashLaw, LaidLaw};
ghost use Rattle.dependence.specs.Insertion.{InsertionLaw};
ghost use Rattle.dependence.specs.Removal.{RemovalLaw};
ghost use Rattle.dependence.specs.RunBuffer.{RunEventLaw, RunBufferLaw, OutLaw, RetiredLinesLaw, DrainedStateLaw, FinalStateLaw};
ghost use Rattle.dependence.specs.Buffer.{AppliedLaw, FoundLaw, ApartLaw, UndoneLaw, UntouchedLaw, MembersLaw, OneMoreLaw};

/// What an effect leaves, what its history holds, and that the history gives the state back.
pub fn history_laws()
    ensures after { AfterLaw }
    ensures history { HistoryLaw }
    ensures undo { UndoLaw }
{}

/// A layout has each record cell under one lock at most, which is its location by locks. A member keeps to its
/// footprint, and so do all positions of a run. Where they name only cells under the locks that they hold, those in
/// conflict by their footprints are so by their locks.
pub fn footprint_laws()
    ensures laid { LaidLaw }
    ensures location { LocationLaw }
    ensures keeps { KeepsLaw }
    ensures run { RunKeepsLaw }
    ensures locks { LocksClashLaw }
{}

/// A member that is applied late gives the fold with it, and undoing a part that is closed under later conflict leaves
/// the fold of the rest.
pub fn fold_laws()
    ensures insertion { InsertionLaw }
    ensures removal { RemovalLaw }
{}

/// A history buffer stands after a position was applied, after a part was undone, after one more position was issued
/// and where other positions are due another attempt; and what a position finds in its state is what it finds in the
/// fold of those before it.
pub fn buffer_laws()
    ensures applied { AppliedLaw }
    ensures undone { UndoneLaw }
    ensures one_more { OneMoreLaw }
    ensures members { MembersLaw }
    ensures found { FoundLaw }
    ensures apart { ApartLaw }
    ensures untouched { UntouchedLaw }
{}

/// The history buffer of a run stands after each lawful event, and what an attempt finds stays while it is out. What
/// retires has the lines of the plain run, and a complete journal leaves the plain run's state, whatever the order of
/// its events and whatever the faults.
pub fn run_buffer_laws()
    ensures event { RunEventLaw }
    ensures journal { RunBufferLaw }
    ensures out { OutLaw }
    ensures lines { RetiredLinesLaw }
    ensures drained { DrainedStateLaw }
    ensures state { FinalStateLaw }
{}
