// What an audit keeps of the events so far.
ghost use Rattle.std.specs.Prelude.{◌<◌, length};

use gp_base::Fault;
use one_thread::Step;

/// A position that was issued: its present attempt, the front at which that began, whether it was posted, whether its
/// result is applied, and whether any attempt was taken.
#[derive(Clone, Copy)]
pub struct Seen {
    pub attempt: u64,
    pub begun: u32,
    pub posted: bool,
    pub applied: bool,
    pub taken: bool,
}

/// What the events so far leave: the positions that were issued, the pairs of position and attempt that were posted and
/// not taken, the positions whose present attempt is not applied, in no order, and how many positions have retired.
#[derive(Drop)]
pub struct Audit<'a> {
    pub steps: &'a [Step],
    pub faults: &'a [Fault],
    pub seen: Vec<Seen>,
    pub out: Vec<(u32, u32)>,
    pub waiting: Vec<u32>,
    pub retired: usize,
    pub ghost few: { length steps.now < 4294967295 },
}
