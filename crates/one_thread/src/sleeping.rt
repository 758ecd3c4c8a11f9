// Threads that sleep: they have ended or wait at a barrier, so they rest until a barrier opens, whatever other threads do.
// Ways over them are kept from one turn to the next.
ghost use Rattle.std.specs.Prelude.{◌≡◌, ◌≢◌, ℕ, ◌<◌, ◌≤◌, length, map, OnOk};
ghost use Rattle.one_thread.specs.inner.Sleeping.{sleeps, way_at, SleepBetween, SleepOver, IsUncrossed};
ghost use Rattle.one_thread.specs.View.{seat_of, WalksStand};

use crate::seats::{Seat, Stand, Table};
use std::alloc::AllocError;
use task_ast::SyncOp;

// Whether the thread has ended, or waits at a barrier.
fn sleeps(seat: &Seat) -> bool
    ensures { result ≡ sleeps (seat_of seat.now) }
{
    let Some(next) = &seat.next else {
        return false;
    };
    match &next.sync {
        SyncOp::End => true,
        SyncOp::Barrier(_) => matches!(seat.stand, Stand::Waits),
        SyncOp::Start => false,
        SyncOp::Lock(_) => false,
        SyncOp::Unlock(_) => false,
        SyncOp::Fork { .. } => false,
        SyncOp::Join(_) => false,
        SyncOp::Settle { .. } => false,
        SyncOp::BadIndex => false,
        SyncOp::Spent => false,
    }
}

// Where the way from a thread leads, or 0.
fn way(ways: &[usize], t: usize) -> usize
    ensures { result ≡ way_at ways.now t }
{
    match ways.get(t) {
        Some(way) => *way,
        None => 0,
    }
}

/// The way from a thread leads to another from now on.
pub fn keep(ways: &mut Vec<usize>, t: usize, to: usize) -> Result<(), AllocError>
    ensures here { OnOk result (way_at ways.new.items t ≡ to) }
    ensures others { OnOk result ((u : ℕ) → u ≢ t → way_at ways.new.items u ≡ way_at ways.old.items u) }
{
    while ways.len() <= t {
        ways.push(0)?;
    }
    ways[t] = to;
    Ok(())
}

/// No way goes over this thread any more.
pub fn wake(ways: &mut Vec<usize>, seats: &[Seat], t: usize)
    requires exists { t < length seats.now }
    requires sleep { SleepOver ways.old.items (map seat_of seats.now) }
    ensures sleep { SleepOver ways.new.items (map seat_of seats.now) }
    ensures uncrossed { IsUncrossed ways.new.items t }
{
    if sleeps(&seats[t]) {
        ways.clear();
    }
}

impl Table {
    /// The first thread from one on that does not sleep, or the number of all.
    pub fn past_sleepers(&self, from: usize) -> usize
        requires walks { WalksStand self.now }
        ensures sleep { SleepBetween from result (map seat_of self.now.seats.items) }
        ensures onward { from ≤ result }
    {
        let mut t = from;
        while t < self.seats.len() {
            if !sleeps(&self.seats[t]) {
                return t;
            }
            t = (t + 1).max(way(&self.ways, t));
        }
        t
    }
}
