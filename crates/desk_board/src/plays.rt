// What each kind of step tells who makes it, and how views are cut and put together.
ghost use Rattle.desk_board.specs.Views.{took, given_up, cut_left, cut_right, pass_part, clerk_part, passes_both, gathered_both};
ghost use Rattle.desk_board.specs.Told.{drew, finished, looked};

use crate::view::{PassHand, SeatView, Slot, View};
use atomic_table::{Join, Play, Split};
use gp_base::Job;

/// A ticket is taken: 1 is added to the counter.
pub(crate) struct Draw;

impl<J: Job> Play<Slot<J, J::Run>, View<J, J::With>> for Draw {
    ghost then = { drew J.fits };
}

/// A run is back: the desk's word becomes 1.
pub(crate) struct Finish;

impl<J, W, R> Play<Slot<J, R>, View<J, W>> for Finish {
    ghost then = { finished };
}

/// The desk's word is read.
pub(crate) struct Look;

impl<J, W, R> Play<Slot<J, R>, View<J, W>> for Look {
    ghost then = { looked };
}

/// A run is taken off a desk.
pub struct Take;

impl<J: Job, H> Play<Slot<J, J::Run>, SeatView<J, J::With, H>> for Take {
    ghost then = { took J.is_run };
}

/// A part of the share goes to a new pass.
pub struct Cut;

impl<J, W, H: PassHand> Split<SeatView<J, W, H>> for Cut {
    ghost left = { cut_left H.kept };

    ghost right = { cut_right H.given };
}

/// The pass goes on at a new seat, and the old one keeps the desk's slot alone.
pub struct Leave;

impl<J, W, H: PassHand> Split<SeatView<J, W, H>> for Leave {
    ghost left = { λ _. given_up H.none };

    ghost right = { λ v. v };
}

/// The pass comes to the seat that has the desk's slot.
pub struct Return;

impl<J, W, H: PassHand> Join<SeatView<J, W, H>> for Return {
    ghost both = { λ _ u. u };

    ghost spent = { given_up H.none };
}

/// The first seat becomes that of the first pass and that of the clerk.
pub struct Office;

impl<J, W, H: PassHand> Split<SeatView<J, W, H>> for Office {
    ghost left = { pass_part };

    ghost right = { clerk_part H.none };
}

/// Two passes become one.
pub struct Merge;

impl<J, W, H: PassHand> Join<SeatView<J, W, H>> for Merge {
    ghost both = { passes_both H.both };

    ghost spent = { given_up H.none };
}

/// The clerk takes the last pass in.
pub struct Gather;

impl<J, W, H: PassHand> Join<SeatView<J, W, H>> for Gather {
    ghost both = { gathered_both };

    ghost spent = { given_up H.none };
}
