// The laws of the definitions, each on a function with an empty body.

ghost use Rattle.rollback.specs.Laws.{SettlesLaw, RisesLaw, AgainLaw, DependentsLaw, LaterLaw, RollsLaw, InitialLaw, KeepsLaw, EventLaw, StandsLaw, OneBlockLaw, WaitsLaw, PostsLaw, FirstLaw, NextLaw, AllLaw, RanLaw, CompleteLaw};

/// The multiples of a number and the settles of a run are cuts of it: each settle is one, so that what has retired
/// before it is not rolled back. A later position has no earlier cut, and that of a cut is the cut itself.
pub fn cut_laws()
    ensures settles { SettlesLaw }
    ensures rises { RisesLaw }
    ensures again { AgainLaw }
{}

/// Whatever the cuts, the dependents of a position that is struck are rolled back with it: a rollback redoes all that a
/// restart redoes. What is rolled back are the positions from a cut up to the front, that of the position among them.
pub fn rollback_laws()
    ensures dependents { DependentsLaw }
    ensures later { LaterLaw }
    ensures rolls { RollsLaw }
{}

/// What holds between two events, where settles are cuts and delays are short: it holds before the first, and each
/// event that is allowed keeps it, so that nothing of a block that has begun to retire is rolled back. What is out is
/// of one block, a later block waits for each position before it, and the first position that is not applied may be
/// posted.
pub fn standing_laws()
    ensures initial { InitialLaw }
    ensures keeps { KeepsLaw }
    ensures event { EventLaw }
    ensures journal { StandsLaw }
    ensures block { OneBlockLaw }
    ensures waits { WaitsLaw }
    ensures posts { PostsLaw }
{}

/// The restarts of a journal that is lawful by blocks are the first of all rollbacks, one may come next exactly where
/// the next of all has the present front, and a complete journal has them all. What has retired was posted and taken at
/// its present attempt. It is complete exactly where it has an issue and a retirement for each position and all
/// rollbacks.
pub fn rollbacks_laws()
    ensures first { FirstLaw }
    ensures next { NextLaw }
    ensures all { AllLaw }
    ensures ran { RanLaw }
    ensures complete { CompleteLaw }
{}
