// Threads that can't go on, over which the token goes in one step.
ghost use Rattle.std.specs.Prelude.{◌≡◌, ◌<◌, ◌≤◌, false, length, IfOk, OnOk};
ghost use Rattle.task_ast.specs.Table.{next_of};
ghost use Rattle.task_ast.specs.Turn.{turns_left, next_issue};
ghost use Rattle.one_thread.specs.inner.Resting.{stalls, rests, RestBetween};
ghost use Rattle.one_thread.specs.View.{table_of, WalksStand};

use crate::seats::{Stand, Table};
use crate::sleeping::keep;
use crate::turns::joined;
use std::alloc::AllocError;
use task_ast::SyncOp;

impl Table {
    // Whether the thread is known to go on somewhere.
    fn is_going(&self, t: usize) -> bool
        requires { t < length self.now.seats.items }
        ensures { result ≡ Rattle.one_thread.specs.inner.Resting.is_going (next_of (table_of self.now) t) }
    {
        match &self.seats[t].next {
            Some(next) => !next.sync.is_end(),
            None => false,
        }
    }

    // Whether a thread that stands at this synchronisation passes.
    fn stalls(&self, t: usize, sync: &SyncOp) -> bool
        requires { t < length self.now.seats.items }
        ensures { result ≡ stalls sync.now (table_of self.now) t }
    {
        match sync {
            SyncOp::Lock(lock) => !self.owners.is_free(lock.0),
            SyncOp::Join(h) => match joined(*h, self.seats.len()) {
                Some(other) => self.is_going(other),
                None => false,
            },
            SyncOp::Barrier(_) => matches!(self.seats[t].stand, Stand::Waits),
            SyncOp::Start => false,
            SyncOp::Unlock(_) => false,
            SyncOp::Fork { .. } => false,
            SyncOp::Settle { .. } => false,
            SyncOp::End => false,
            SyncOp::BadIndex => false,
            SyncOp::Spent => false,
        }
    }

    // Whether the thread has ended, or passes where the token comes to it.
    fn rests(&self, t: usize) -> bool
        requires { t < length self.now.seats.items }
        ensures { result ≡ rests (table_of self.now) t }
    {
        match &self.seats[t].next {
            Some(next) => next.sync.is_end() || self.stalls(t, &next.sync),
            None => false,
        }
    }

    // The first of these threads that does not rest, or one after them. Ways over those that sleep are kept.
    fn first_awake(&mut self, from: usize, to: usize) -> Result<usize, AllocError>
        requires within { to ≤ length self.old.seats.items }
        requires walks { WalksStand self.old }
        ensures rest { IfOk result (λ t. RestBetween from t (table_of self.old)) }
        ensures onward { IfOk result (λ t. from ≤ t) }
        ensures awake { IfOk result (λ t. t < to → rests (table_of self.old) t ≡ false) }
        ensures table { table_of self.new ≡ table_of self.old }
        ensures owners { self.new.owners ≡ self.old.owners }
        ensures walks { OnOk result (WalksStand self.new) }
    {
        let mut t = from;
        while t < to {
            let next = self.past_sleepers(t);
            keep(&mut self.ways, t, next)?;
            if next >= to || !self.rests(next) {
                return Ok(next);
            }
            t = next + 1;
        }
        Ok(t)
    }

    /// The token looks first at the next thread that does not rest, where no thread has passed since the last issue or
    /// arrival: those before it would pass, and what comes then is the same.
    pub fn skip(&mut self) -> Result<(), AllocError>
        requires walks { WalksStand self.old }
        ensures issue { OnOk result (next_issue (table_of self.old) ≡ next_issue (table_of self.new)) }
        ensures left { turns_left (table_of self.new) ≡ turns_left (table_of self.old) }
        ensures owners { self.new.owners ≡ self.old.owners }
        ensures walks { OnOk result (WalksStand self.new) }
    {
        if self.passed.first <= self.passed.last {
            return Ok(());
        }
        let start = self.start;
        let all = self.seats.len();
        let later = self.first_awake(start, all)?;
        if later < all {
            self.start = later;
            return Ok(());
        }
        let earlier = self.first_awake(0, start)?;
        if earlier < start {
            self.start = earlier;
        }
        Ok(())
    }
}
