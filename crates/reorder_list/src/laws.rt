// What each event of a journal does to the entries and to what they hold, each on a function with an empty body.

ghost use Rattle.reorder_list.specs.Stages.{RunnableLaw, KnownLaw, IssueLaw, PostLaw, TakeLaw, StaleLaw, GoneLaw, RestartLaw, RetireLaw, PushedLaw, SentLaw, LearntLaw, TakenLaw, RaisedLaw, DroppedLaw};

/// The entries stand after each event that is allowed, one is runnable exactly where its attempt may be
/// posted by locks, and it is known what each touches exactly where each was taken.
pub fn entries_laws()
    ensures runnable { RunnableLaw }
    ensures known { KnownLaw }
    ensures issue { IssueLaw }
    ensures post { PostLaw }
    ensures take { TakeLaw }
    ensures stale { StaleLaw }
    ensures gone { GoneLaw }
    ensures restart { RestartLaw }
    ensures retire { RetireLaw }
{}

/// A store and the entries hold, after each event, what the history buffer of the run holds.
pub fn held_laws()
    ensures pushed { PushedLaw }
    ensures sent { SentLaw }
    ensures learnt { LearntLaw }
    ensures taken { TakenLaw }
    ensures raised { RaisedLaw }
    ensures dropped { DroppedLaw }
{}
