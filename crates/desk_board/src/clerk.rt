// What the clerk does: it looks at desks, collects their runs, and gathers the last pass.
ghost use Rattle.std.specs.Prelude.{◌≡◌, ◌<◌, true, length, Contains};
ghost use Rattle.desk_board.specs.Held.{about, hand, gathered, book, IsPassOf, IsClerkOf};
ghost use Rattle.desk_board.specs.Told.{HasLooked, EachOnce, IsWhole, IsRunAt, book_took};

use crate::plays::{Gather, Look};
use crate::shared::take_run;
use crate::types::{Board, Clerk, Pass};
use gp_base::Job;

impl<J: Job> Board<J> {
    /// The number of jobs, and of desks.
    pub fn count(&self) -> u32
        ensures { result ≡ length (about self.now).jobs }
    {
        self.count
    }

    /// Whether the run of this desk is back, or was collected. Once the last pass is gathered, every desk's is. Takes
    /// no memory.
    pub fn look(&self, clerk: &mut Clerk<J>, desk: u32) -> bool
        requires of { IsClerkOf self.now clerk.old }
        requires desk { desk < length (about self.now).jobs }
        ensures of { IsClerkOf self.now clerk.new }
        ensures book { HasLooked desk result (book clerk.old) (book clerk.new) }
        ensures seen { result ≡ true → Contains (book clerk.new).seen desk }
        ensures hand { gathered clerk.new ≡ gathered clerk.old }
        ensures all_done { IsWhole (gathered clerk.old) → result ≡ true }
        ensures all_drawn { IsWhole (gathered clerk.old) → EachOnce (length (about self.now).jobs) (gathered clerk.old).drawn }
    {
        let found = self
            .table
            .shared
            .load::<Look>(&mut clerk.seat, desk as usize + 1);
        found > 0
    }

    /// Takes the run off a desk that this clerk saw done and has not collected. Takes no memory.
    pub fn collect(&self, clerk: &mut Clerk<J>, desk: u32) -> J::Run
        requires of { IsClerkOf self.now clerk.old }
        requires seen { Contains (book clerk.old).seen desk }
        requires first { ¬ Contains (book clerk.old).taken desk }
        ensures of { IsClerkOf self.now clerk.new }
        ensures run { IsRunAt J.is_run (about self.now) desk result }
        ensures book { book clerk.new ≡ book_took desk (book clerk.old) }
        ensures hand { gathered clerk.new ≡ gathered clerk.old }
    {
        take_run(&self.table.shared, &mut clerk.seat, desk, 2)
    }

    /// Takes in the pass that has the whole share, has ended and holds no desk. From then on each look of this clerk
    /// answers true. Takes no memory.
    pub fn gather(&self, clerk: &mut Clerk<J>, pass: Pass<J>)
        requires of { IsClerkOf self.now clerk.old × IsPassOf self.now pass }
        requires whole { IsWhole (hand pass) }
        ensures of { IsClerkOf self.now clerk.new }
        ensures hand { gathered clerk.new ≡ hand pass }
        ensures whole { IsWhole (gathered clerk.new) }
        ensures book { book clerk.new ≡ book clerk.old }
    {
        let Pass { seat, ticket: _ } = pass;
        self.table.shared.join_seat::<Gather>(&mut clerk.seat, seat);
    }
}
