// Laws of the thread table, each the contract of a function with an empty body.

ghost use Rattle.task_ast.specs.laws.Less.{LessLaw, NextLaw};
ghost use Rattle.task_ast.specs.Reached.{FinishedLaw};
ghost use Rattle.task_ast.specs.laws.Standing.{OwnLaw, AgreesLaw, TurnsLaw, FrontLaw, LearnLaw};
ghost use Rattle.task_ast.specs.laws.Threads.{AheadLaw, PassLaw, IssueLaw, SeatsLaw, MostThreadsLaw, NeedsLaw, NeededLaw};

/// A run is finished only where every thread has ended.
pub fn finished_law()
    ensures { FinishedLaw }
{}

/// The turn of a table that knows less is the turn of the whole table, or it needs a next synchronisation that is
/// unknown; so it issues next what the whole table issues next, and ends as it does.
pub fn known_less_laws()
    ensures turn { LessLaw }
    ensures next { NextLaw }
{}

/// The thread that a turn tries is there, with a known next synchronisation. A pass leaves the threads as they are. An
/// issue begins a subthread of the thread that was tried, as it may: a lock that it takes was free, a thread that it
/// joins had ended, and no body of it ended by a fault.
pub fn turn_laws()
    ensures ahead { AheadLaw }
    ensures pass { PassLaw }
    ensures issue { IssueLaw }
{}

/// At most `MOST_THREADS` threads exist in a run.
pub fn seat_laws()
    ensures turn { SeatsLaw }
    ensures most { MostThreadsLaw }
{}

/// Only a thread that is there and whose next synchronisation is unknown is needed. Where a thread that has passed
/// comes up again, the least thread that has not ended is needed, if it is unknown.
pub fn need_laws()
    ensures needed { NeededLaw }
    ensures least { NeedsLaw }
{}

/// A table that knows less than the plain run's at a position, as the run's own table does: it counts as the run does,
/// and has its threads, owners and last subthreads; its turns issue the run's subthreads in order, and find its end;
/// and it stands so still when it learns what a thread's last subthread left.
pub fn standing_laws()
    ensures own { OwnLaw }
    ensures agrees { AgreesLaw }
    ensures turns { TurnsLaw }
    ensures front { FrontLaw }
    ensures learn { LearnLaw }
{}
