// The calls of a device in memory, some of which fail.
ghost use Rattle.std.specs.Prelude.{◌≡◌, ◌+◌, ◌-◌, ◌^◌, ◌↔◌, min, IsTrue};
ghost use Rattle.gp_base.specs.Calls.{IsNextListed};

use crate::Seq;

/// How many calls were made, and the numbers of those that fail, counted from 1.
#[derive(Drop)]
pub struct Calls {
    pub failing: Seq<u64>,
    pub made: u64,
}

impl Calls {
    /// Counts a call, and says whether it fails. The count stays at its last value.
    pub fn fails_next(&mut self) -> bool
        ensures fails { IsTrue result ↔ IsNextListed self.old.failing self.old.made }
        ensures counted { self.new.made ≡ min (self.old.made + 1) (2 ^ 64 - 1) }
        ensures same { self.new.failing ≡ self.old.failing }
    {
        let Some(number) = self.made.checked_add(1) else {
            return false;
        };
        self.made = number;
        self.failing.as_slice().contains(&number)
    }
}
