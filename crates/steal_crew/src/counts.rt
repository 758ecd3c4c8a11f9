// How many tasks were claimed in each way.
ghost use Rattle.std.specs.Prelude.{◌≡◌, ◌+◌, ◌<◌};
ghost use Rattle.steal_crew.specs.Counts.{sum_of};

/// How many desks were claimed by hints of a worker's own deque, by hints that were stolen, and by sweeps.
#[derive(Clone, Copy, Drop)]
pub struct Counts {
    pub own: u64,
    pub stolen: u64,
    pub swept: u64,
}

impl Counts {
    /// None was claimed.
    pub fn none() -> Counts
        ensures { sum_of result ≡ 0 }
    {
        Counts {
            own: 0,
            stolen: 0,
            swept: 0,
        }
    }

    /// Both together.
    pub fn and(self, other: Counts) -> Counts
        requires { sum_of self + sum_of other < 18446744073709551616 }
        ensures { sum_of result ≡ sum_of self + sum_of other }
    {
        Counts {
            own: self.own + other.own,
            stolen: self.stolen + other.stolen,
            swept: self.swept + other.swept,
        }
    }
}
