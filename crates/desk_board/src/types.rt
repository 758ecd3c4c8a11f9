// A board, and what its callers hold.
ghost use Rattle.std.specs.Prelude.{◌≡◌, ◌+◌, ◌≤◌, [], ◌∷◌, length};
ghost use Rattle.desk_board.specs.Rule.{no_book, blank};
ghost use Rattle.desk_board.specs.declared.view.Slot.TheVariants.{Empty};

use crate::rule::{JobSeat, JobTable};
use crate::view::Slot;
use gp_base::Job;

/// A board of jobs. All calls go through a shared reference, and none of them waits.
pub struct Board<J: Job> {
    pub(crate) table: JobTable<J>,
    pub(crate) count: u32,
    ghost counted: { count ≡ length table.shared.key.jobs.value.items },
    ghost sized: { (table.shared.table_id.words ≡ count + 1) × (table.shared.table_id.slots ≡ count) },
}

impl<J: Job> Drop for Board<J> {
    fn drop(self) {
        let Self { table: _, count: _ } = self;
    }
}

/// The right to draw desks of one board, which can be split among threads. Who lets a pass go can never gather.
#[derive(Drop)]
pub struct Pass<J: Job> {
    pub(crate) seat: JobSeat<J>,
    // the ticket at which the pass ended
    pub(crate) ticket: Option<u64>,
    ghost bare: { seat.me.1 ≡ [] },
    ghost plain: { seat.me.0.book ≡ no_book },
    ghost part: { 1 ≤ seat.me.0.hand.share },
    ghost told: { seat.me.0.hand.ticket ≡ ticket },
}

/// The right to look at the desks of one board and to collect what was done. A board has one clerk.
#[derive(Drop)]
pub struct Clerk<J: Job> {
    pub(crate) seat: JobSeat<J>,
    ghost office: { seat.me.0.book.clerk ≡ 1 },
}

/// A desk that was drawn and waits for its run. It can't be let go: `Board::finish` takes it.
pub struct Desk<J: Job> {
    pub(crate) seat: JobSeat<J>,
    pub(crate) number: u32,
    ghost empty: { seat.me.1 ≡ (number, Empty) ∷ [] },
    ghost blank: { seat.me.0 ≡ blank },
}
