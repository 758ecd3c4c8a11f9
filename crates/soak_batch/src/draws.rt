// Numbers drawn one after another.
ghost use Rattle.std.specs.Prelude.{◌≡◌, ◌<◌, ◌^◌};
ghost use Rattle.soak_batch.specs.meaning.Draws.{next, drawn};

/// The state of a linear congruential generator (Knuth's constants of MMIX).
#[derive(Drop)]
pub struct Draws {
    pub state: u64,
}

impl Draws {
    /// The next draw.
    #[tactic(auto, unfolding(crate::specs::meaning::Draws::next, crate::specs::meaning::Draws::drawn))]
    pub fn draw(&mut self) -> u64
        ensures state { self.new.state ≡ next self.old.state }
        ensures drawn { result ≡ drawn self.new.state }
        ensures small { result < 2 ^ 31 }
    {
        let state = self.state as u128 * 6364136223846793005 + 1442695040888963407;
        self.state = (state % 18446744073709551616) as u64;
        self.state / 8589934592
    }
}
