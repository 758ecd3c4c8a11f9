// The laws of the definitions, each on a function with an empty body.

ghost use Rattle.dependence.specs.Laws.{ConflictLaw, SwapLaw, DependentsLaw, LeastLaw, RisingLaw, NextLaw, ShiftLaw, MarksLaw, RunLaw, RaiseLaw, RestartsEndLaw, FewLaw, FrontLaw, GrowLaw, StageLaw, RestartsFirstLaw, RestartsNextLaw, RestartsAllLaw, LawfulTestLaw, CompleteTestLaw};
ghost use Rattle.dependence.specs.Counts.{CompleteLaw, RetirementsLaw, OnceLaw, RanLaw, RunsAgainLaw, AttemptsLaw};
ghost use Rattle.dependence.specs.Measure.{LessLaw, LengthLaw};
ghost use Rattle.dependence.specs.Standing.{ShortLaw, InitialLaw, EventLaw, StandsLaw, RetiredLaw, NoneLiveLaw, PassesLaw, RunRedoesLaw, RunCleanLaw, RunStandsLaw, IssuedLaw};
ghost use Rattle.dependence.specs.Posting.{PostLaw, OutReadyLaw, RunWithinLaw, NoLocksLaw};

/// The test says when two footprints are in conflict, and conflict has no direction.
pub fn conflict_laws()
    ensures test { ConflictLaw }
    ensures swap { SwapLaw }
{}

/// The list of dependents is the least set, in rising order; how it grows with the front, how it is read from a window
/// of the run, and how from marks.
pub fn dependents_laws()
    ensures members { DependentsLaw }
    ensures least { LeastLaw }
    ensures rising { RisingLaw }
    ensures next { NextLaw }
    ensures window { ShiftLaw }
    ensures marks { MarksLaw }
{}

/// What holds between two events of a lawful journal: it holds before the first, each event that is allowed keeps it,
/// from any stage, where a restart redoes nothing that has retired and delays are short, as faults in range have them.
/// Where all that was issued has retired, no fault is live, so that a settle is issued where nothing is struck. Nothing
/// names a position that was not issued.
pub fn standing_laws()
    ensures short { ShortLaw }
    ensures initial { InitialLaw }
    ensures event { EventLaw }
    ensures journal { StandsLaw }
    ensures retired { RetiredLaw }
    ensures none_live { NoneLiveLaw }
    ensures passes { PassesLaw }
    ensures issued { IssuedLaw }
{}

/// What one more restart changes; and the restarts end.
pub fn restarts_laws()
    ensures raise { RaiseLaw }
    ensures ends { RestartsEndLaw }
    ensures few { FewLaw }
{}

/// A beginning of a lawful journal is lawful, and one more event that is allowed keeps it so. Where what has retired
/// stays clean, its restarts are the first of all restarts, one may come next exactly where the next of all has the
/// present front, and a complete journal has them all.
pub fn journal_laws()
    ensures front { FrontLaw }
    ensures grow { GrowLaw }
    ensures stage { StageLaw }
    ensures first { RestartsFirstLaw }
    ensures next { RestartsNextLaw }
    ensures all { RestartsAllLaw }
{}

/// A journal is complete exactly where it is lawful and has an issue and a retirement for each position and all
/// restarts. Positions retire in order, what has retired was posted and taken at its present attempt, no attempt is
/// posted or taken twice, and one after the first follows the restart that ended the one before, of which there are no
/// more than faults.
pub fn count_laws()
    ensures complete { CompleteLaw }
    ensures retirements { RetirementsLaw }
    ensures once { OnceLaw }
    ensures ran { RanLaw }
    ensures runs_again { RunsAgainLaw }
    ensures attempts { AttemptsLaw }
{}

/// Each event leaves less to do, so that a lawful journal has a greatest length.
pub fn measure_laws()
    ensures less { LessLaw }
    ensures length { LengthLaw }
{}

/// The tests of journals say which are lawful, and which are complete.
pub fn journal_tests_laws()
    ensures lawful { LawfulTestLaw }
    ensures complete { CompleteTestLaw }
{}

/// A plain run's order meets what the laws of restarts and journals ask of one, and so its journals keep what stands.
pub fn run_laws()
    ensures struck { RunLaw }
    ensures conflicts { RunRedoesLaw }
    ensures clean { RunCleanLaw }
    ensures stands { RunStandsLaw }
{}

/// What may be posted by the locks that are held may be posted, and what is out stays ready by locks, where a post
/// waits by locks and a restart finds no lock away. A run whose subthreads name only cells under their locks is so.
pub fn posting_laws()
    ensures post { PostLaw }
    ensures ready { OutReadyLaw }
    ensures within { RunWithinLaw }
    ensures home { NoLocksLaw }
{}
