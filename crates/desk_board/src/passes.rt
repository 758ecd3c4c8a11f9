// What passes do: they draw desks, put runs back, split and join.
ghost use Rattle.std.specs.Prelude.{◌≡◌, ℕ, ◌<◌, ◌≤◌, [], length, Contains, All, None, MatchOption, IfSome};
ghost use Rattle.desk_board.specs.Held.{about, hand, IsPassOf, IsDeskOf};
ghost use Rattle.desk_board.specs.Told.{HasEnded, EndsPast, NoneTwice, IsJobAt, IsRunAt, hand_drew, hand_finished, hand_both, hand_kept, hand_given};

use crate::plays::{Cut, Draw, Finish, Leave, Merge};
use crate::rule::BoardRule;
use crate::shared::put_back;
use crate::types::{Board, Desk, Pass};
use crate::view::{Hand, Slot};
use gp_base::Job;
use std::mem;

impl<J: Job> Desk<J> {
    /// The desk's number, which is that of its job.
    pub fn number(&self) -> u32
        ensures { result ≡ self.now.number }
    {
        self.number
    }
}

impl<J: Job> Board<J> {
    /// Draws a desk with its job, which no other pass has drawn or will draw. `None` where every job has been drawn:
    /// then the pass has ended, and answers `None` at once from now on. Takes no memory.
    pub fn draw(&self, pass: &mut Pass<J>) -> Option<(Desk<J>, J)>
        requires of { IsPassOf self.now pass.old }
        ensures of { IsPassOf self.now pass.new }
        ensures stays { HasEnded (hand pass.old) → (result ≡ None) × (hand pass.new ≡ hand pass.old) }
        ensures hand { MatchOption result (EndsPast (length (about self.now).jobs) (hand pass.old) (hand pass.new)) (λ drawn. hand pass.new ≡ hand_drew drawn.0.number (hand pass.old)) }
        ensures desk { IfSome result (λ drawn. IsDeskOf self.now drawn.0) }
        ensures held { IfSome result (λ drawn. Contains (hand pass.new).held drawn.0.number) }
        ensures job { IfSome result (λ drawn. IsJobAt J.fits (about self.now) drawn.0.number drawn.1) }
        ensures rises { IfSome result (λ drawn. All (λ k. k < drawn.0.number) (hand pass.old).drawn) }
        ensures once { IfSome result (λ drawn. NoneTwice (hand pass.new).drawn) }
    {
        if pass.ticket.is_some() {
            return None;
        }
        let found = self.table.shared.fetch_add::<Draw>(&mut pass.seat, 0, 1);
        if found >= u64::from(self.count) {
            pass.ticket = Some(found);
            return None;
        }
        let number = found as u32;
        let Slot::Todo(job) = self
            .table
            .shared
            .exchange(&mut pass.seat, number as usize, Slot::Empty)
        else {
            unreachable!()
        };
        // the desk keeps the seat that has the slot, so that desks can be finished in any order
        let seat = self.table.shared.split_seat::<Leave>(&mut pass.seat);
        let seat = mem::replace(&mut pass.seat, seat);
        Some((Desk { seat, number }, job))
    }

    /// Puts a run of the desk's job back on the desk, which this pass holds. Takes no memory.
    pub fn finish(&self, pass: &mut Pass<J>, desk: Desk<J>, run: J::Run)
        requires of { IsPassOf self.now pass.old × IsDeskOf self.now desk }
        requires held { Contains (hand pass.old).held desk.number }
        requires run { IsRunAt J.is_run (about self.now) desk.number run }
        ensures of { IsPassOf self.now pass.new }
        ensures hand { hand pass.new ≡ hand_finished desk.number (hand pass.old) }
    {
        let Desk { seat, number } = desk;
        put_back::<Finish, J, Hand, BoardRule<J>>(
            &self.table.shared,
            &mut pass.seat,
            seat,
            number,
            run,
            1,
        );
    }

    /// Gives 1 of the pass's share to a new pass, which has drawn no desk and has ended where this one has. Takes no
    /// memory.
    pub fn split(&self, pass: &mut Pass<J>) -> Pass<J>
        requires of { IsPassOf self.now pass.old }
        requires share { 2 ≤ (hand pass.old).share }
        ensures of { IsPassOf self.now pass.new × IsPassOf self.now result }
        ensures kept { hand pass.new ≡ hand_kept (hand pass.old) }
        ensures given { hand result ≡ hand_given (hand pass.old) }
    {
        let seat = self.table.shared.split_seat::<Cut>(&mut pass.seat);
        Pass {
            seat,
            ticket: pass.ticket,
        }
    }

    /// Adds the share, the passes and the drawn desks of another pass, which holds no desk. The pass has ended where
    /// either had. Takes no memory.
    pub fn join(&self, into: &mut Pass<J>, other: Pass<J>)
        requires of { IsPassOf self.now into.old × IsPassOf self.now other }
        requires idle { (hand other).held ≡ [] }
        ensures of { IsPassOf self.now into.new }
        ensures both { hand into.new ≡ hand_both (hand into.old) (hand other) }
    {
        let Pass { seat, ticket } = other;
        self.table.shared.join_seat::<Merge>(&mut into.seat, seat);
        if into.ticket.is_none() {
            into.ticket = ticket;
        }
    }
}
