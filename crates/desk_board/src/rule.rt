// The rule that every step keeps, and the table under it.

use crate::view::{BoardSetup, Hand, SeatView, Slot, View};
use atomic_table::{Seat, Shared, Table, TableRule};
use gp_base::Job;
use std::alloc::Global;
use std::marker::PhantomData;

/// The table of a board whose passes have hands H, under the rule P.
pub type BoardTable<
    J: Job,
    H,
    P: TableRule<Slot<J, J::Run>, SeatView<J, J::With, H>, BoardSetup<J, J::With>>,
> = Table<Slot<J, J::Run>, SeatView<J, J::With, H>, BoardSetup<J, J::With>, P, Global>;

/// What threads share of it.
pub type BoardShared<
    J: Job,
    H,
    P: TableRule<Slot<J, J::Run>, SeatView<J, J::With, H>, BoardSetup<J, J::With>>,
> = Shared<Slot<J, J::Run>, SeatView<J, J::With, H>, BoardSetup<J, J::With>, P>;

/// A seat at it.
pub type BoardSeat<J: Job, H> = Seat<Slot<J, J::Run>, SeatView<J, J::With, H>>;

pub struct BoardRule<J> {
    job: PhantomData<J>,
}

impl<J: Job> TableRule<Slot<J, J::Run>, View<J, J::With>, BoardSetup<J, J::With>> for BoardRule<J> {
    ghost use Rattle.desk_board.specs.Rule.{Kept, first_view};

    ghost holds = { λ plan. Kept J.fits J.is_run plan };

    ghost first = { first_view };
}

pub type JobTable<J: Job> = BoardTable<J, Hand, BoardRule<J>>;

pub type JobSeat<J: Job> = BoardSeat<J, Hand>;
