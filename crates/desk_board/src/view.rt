// What lies on a desk, and what a seat at the board's table knows. Of the types that seats know no value is ever made:
// they stand in proofs alone.

use std::collections::LinkedList;
use std::snapshot::Snapshot;

/// What lies on a desk.
#[derive(Drop)]
pub enum Slot<J, R> {
    Empty,
    Todo(J),
    Done(R),
}

/// What a board was made of: its jobs, of which job k lies on desk k, and what they are run under.
pub struct About<J, W> {
    pub jobs: LinkedList<J>,
    pub with: W,
}

/// What a pass knows of itself.
pub struct Hand {
    /// Its part of the 64 parts of the right to draw.
    pub share: u64,
    /// How many passes it is made of: itself, and those that were joined into it.
    pub passes: u64,
    /// The desks that it has drawn, and those that passes joined into it had drawn.
    pub drawn: LinkedList<u64>,
    /// Those of them whose run isn't back yet.
    pub held: LinkedList<u64>,
    /// The ticket at which it ended.
    pub ticket: Option<u64>,
}

/// What the clerk knows.
pub struct Book {
    /// 1 at the clerk, and 0 elsewhere.
    pub clerk: u64,
    /// The desks that were seen done.
    pub seen: LinkedList<u64>,
    /// The desks that were collected.
    pub taken: LinkedList<u64>,
    /// How many looks there were.
    pub looks: u64,
    /// The desk of the last look, and the number found there.
    pub last: Option<(u64, u64)>,
}

/// What a seat knows, where passes have such hands. A pass has an empty book, and the clerk an empty hand until it has
/// gathered.
pub struct SeatView<J, W, H> {
    /// What the board was made of, except at a seat that is given up.
    pub about: Option<About<J, W>>,
    pub hand: H,
    pub book: Book,
}

pub type View<J, W> = SeatView<J, W, Hand>;

/// How hands are cut and put together.
pub trait PassHand {
    /// That of a seat that is no pass's.
    ghost none: { Self };

    /// What a pass keeps when a part of its share goes to a new pass.
    ghost kept: { Self → Self };

    /// What the new pass has.
    ghost given: { Self → Self };

    /// What two passes have together.
    ghost both: { Self → Self → Self };
}

impl PassHand for Hand {
    ghost use Rattle.desk_board.specs.Rule.{no_hand};
    ghost use Rattle.desk_board.specs.Told.{hand_kept, hand_given, hand_both};

    ghost none = { no_hand };

    ghost kept = { hand_kept };

    ghost given = { hand_given };

    ghost both = { hand_both };
}

/// What the rule is told once, when the table is made.
pub struct BoardSetup<J, W> {
    pub jobs: Snapshot<Vec<J>>,
    pub with: Snapshot<W>,
}

impl<J, W> Drop for BoardSetup<J, W> {
    fn drop(self) {
        let Self { jobs: _, with: _ } = self;
    }
}
