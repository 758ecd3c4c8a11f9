// The law of the check, the contract of a function with an empty body.

ghost use Rattle.lock_checker.specs.Soundness.{EndedLaw, HeldFirstLaw, HeldMoveLaw, HeldBeforeLaw, SoundLaw};
ghost use Rattle.lock_checker.specs.WalkLaw.{WalkLaw};

/// Along the control steps of one thread of an accepted program the pairs held are those locked and not yet unlocked;
/// each data statement touches a record only where the pair of the record's lock array and its atom is held; and the
/// atom of each held pair has the value that it had at the lock. At the end of its task nothing is held.
pub fn walk_law()
    ensures { WalkLaw }
{}

/// The check is sound over whole runs. At the opening of an accepted program each thread owns exactly the locks of what
/// it locked and did not unlock; each move, from any state in which that holds, keeps it, whatever the data; and the
/// actions of each subthread name only record cells under the locks that it holds. A thread that has ended owns no
/// lock.
pub fn soundness_laws()
    ensures first { HeldFirstLaw }
    ensures moves { HeldMoveLaw }
    ensures before { HeldBeforeLaw }
    ensures sound { SoundLaw }
    ensures ended { EndedLaw }
{}
