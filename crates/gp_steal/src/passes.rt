// What passes do: they claim desks, put runs back, split and join.
ghost use Rattle.std.specs.Prelude.{◌≡◌, ◌<◌, ◌≤◌, [], length, Contains, MatchOption, IfSome};
ghost use Rattle.gp_steal.specs.Held.{about, hand, IsPassOf, IsDeskOf};
ghost use Rattle.desk_board.specs.Told.{NoneTwice, IsJobAt, IsRunAt};
ghost use Rattle.gp_steal.specs.Told.{HasFailed, hand_claimed, hand_finished, hand_both, hand_kept, hand_given, swept_after};

use crate::plays::{Claim, Finish};
use crate::rule::BoardRule;
use crate::types::{StealBoard, StealDesk, StealPass};
use crate::view::Hand;
use desk_board::{Cut, Leave, Merge, Slot, put_back};
use gp_base::Job;
use std::mem;

impl<J: Job> StealDesk<J> {
    /// The desk's number, which is that of its job.
    pub fn number(&self) -> u32
        ensures { result ≡ self.now.number }
    {
        self.number
    }
}

impl<J: Job> StealPass<J> {
    /// How many desks, from desk 0 on, this pass knows to be claimed: it has tried each of them.
    pub fn swept(&self) -> u32
        ensures { result ≡ (hand self.now).swept }
    {
        self.swept
    }
}

// The swept number after a try of this desk.
fn swept_after(desk: u32, swept: u32) -> u32
    requires { desk < 4294967295 }
    ensures { result ≡ swept_after desk swept }
{
    if desk == swept { swept + 1 } else { swept }
}

impl<J: Job> StealBoard<J> {
    /// Claims a desk with its job, which no other pass has or will have. `None` where the desk was claimed before. In
    /// both cases the pass keeps what it found, and has swept one desk more where this was the next. Takes no memory.
    pub fn claim(&self, pass: &mut StealPass<J>, desk: u32) -> Option<(StealDesk<J>, J)>
        requires of { IsPassOf self.now pass.old }
        requires desk { desk < length (about self.now).jobs }
        ensures of { IsPassOf self.now pass.new }
        ensures hand { MatchOption result (HasFailed desk (hand pass.old) (hand pass.new)) (λ claimed. hand pass.new ≡ hand_claimed desk (hand pass.old)) }
        ensures desk { IfSome result (λ claimed. (claimed.0.number ≡ desk) × IsDeskOf self.now claimed.0) }
        ensures job { IfSome result (λ claimed. IsJobAt J.fits (about self.now) desk claimed.1) }
        ensures once { IfSome result (λ claimed. NoneTwice (hand pass.new).claimed) }
    {
        pass.swept = swept_after(desk, pass.swept);
        let found = self
            .table
            .shared
            .compare_exchange::<Claim>(&mut pass.seat, desk as usize + 1, 0, 1);
        if found > 0 {
            return None;
        }
        let Slot::Todo(job) = self
            .table
            .shared
            .exchange(&mut pass.seat, desk as usize, Slot::Empty)
        else {
            unreachable!()
        };
        // the desk keeps the seat that has the slot, so that desks can be finished in any order
        let seat = self.table.shared.split_seat::<Leave>(&mut pass.seat);
        let seat = mem::replace(&mut pass.seat, seat);
        Some((StealDesk { seat, number: desk }, job))
    }

    /// Puts a run of the desk's job back on the desk, which this pass holds. Takes no memory.
    pub fn finish(&self, pass: &mut StealPass<J>, desk: StealDesk<J>, run: J::Run)
        requires of { IsPassOf self.now pass.old × IsDeskOf self.now desk }
        requires held { Contains (hand pass.old).held desk.number }
        requires run { IsRunAt J.is_run (about self.now) desk.number run }
        ensures of { IsPassOf self.now pass.new }
        ensures hand { hand pass.new ≡ hand_finished desk.number (hand pass.old) }
    {
        let StealDesk { seat, number } = desk;
        put_back::<Finish, J, Hand, BoardRule<J>>(
            &self.table.shared,
            &mut pass.seat,
            seat,
            number,
            run,
            2,
        );
    }

    /// Gives 1 of the pass's share to a new pass, which has claimed, tried and swept no desk. Takes no memory.
    pub fn split(&self, pass: &mut StealPass<J>) -> StealPass<J>
        requires of { IsPassOf self.now pass.old }
        requires share { 2 ≤ (hand pass.old).share }
        ensures of { IsPassOf self.now pass.new × IsPassOf self.now result }
        ensures kept { hand pass.new ≡ hand_kept (hand pass.old) }
        ensures given { hand result ≡ hand_given }
    {
        let seat = self.table.shared.split_seat::<Cut>(&mut pass.seat);
        StealPass { seat, swept: 0 }
    }

    /// Adds the share and the claimed desks of another pass, which holds no desk. The pass has swept as far as either
    /// had. Takes no memory.
    pub fn join(&self, into: &mut StealPass<J>, other: StealPass<J>)
        requires of { IsPassOf self.now into.old × IsPassOf self.now other }
        requires idle { (hand other).held ≡ [] }
        ensures of { IsPassOf self.now into.new }
        ensures both { hand into.new ≡ hand_both (hand into.old) (hand other) }
    {
        let StealPass { seat, swept } = other;
        self.table.shared.join_seat::<Merge>(&mut into.seat, seat);
        into.swept = into.swept.max(swept);
    }
}
