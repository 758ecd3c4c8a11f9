// The laws of idle threads, each on a function with an empty body.

ghost use Rattle.ended_seats.specs.Laws.{PastLaw, ChangedLaw, UnpassedLaw, ReleasedLaw, IssuedLaw};

/// A look that begins at idle threads finds what it finds from the first one on that is not.
pub fn look_laws()
    ensures past { PastLaw }
{}

/// Idle threads stay so where another thread is changed, where passes are forgotten, where a barrier is opened, and after an
/// issue.
pub fn keep_laws()
    ensures changed { ChangedLaw }
    ensures unpassed { UnpassedLaw }
    ensures released { ReleasedLaw }
    ensures issued { IssuedLaw }
{}
