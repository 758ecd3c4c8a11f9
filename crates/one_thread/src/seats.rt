// The threads of a run, and the thread that the token comes to.
ghost use Rattle.std.specs.Prelude.{◌≡◌, ℕ, ◌<◌, ◌≤◌, ◌-◌, false, [], ◌∷◌, length, map, replicate, IfOk, IfSome, Some, None, slice_get};
ghost use Rattle.task_ast.specs.Looking.{look_of};
ghost use Rattle.task_ast.specs.meaning.Table.{numbers, ring};
ghost use Rattle.task_ast.specs.Table.{next_of, learning, unpassed, is_known_end};
ghost use Rattle.task_ast.specs.Turn.{look};
ghost use Rattle.one_thread.specs.Holding.{AreHeld};
ghost use Rattle.ended_seats.specs.Idle.{is_idle, IdleBetween, IdleOver, Uncovered, PassedWithin};
ghost use Rattle.one_thread.specs.View.{table_of, seat_of, onward_of, WalksStand};

use crate::owners::Owners;
use crate::sleeping::wake;
use std::alloc::{AllocError, Global};
use task_ast::{Next, SyncOp};

/// How a thread stands to the barrier that comes next.
#[derive(Clone, Copy)]
pub enum Stand {
    Away,
    Waits,
    Released,
}

/// One thread: its next synchronisation where that is known, the position of its last subthread, whether it has passed
/// since the last issue or arrival, and how it stands to a barrier. Each thread from it up to `onward` is known to have
/// ended, and has not passed, so a walk over the threads goes on there.
#[derive(Drop)]
pub struct Seat {
    pub next: Option<Next>,
    pub last: Option<u32>,
    pub passed: bool,
    pub stand: Stand,
    pub onward: usize,
}

/// The threads that may have passed: those from the first to the last.
#[derive(Drop, Clone, Copy)]
pub struct Passed {
    pub first: usize,
    pub last: usize,
}

/// The thread table. The token looks first at the thread `start`. At most so many threads wait at barriers. Each thread from t
/// up to `ways[t]`, where that is kept, has ended or waits at a barrier.
#[derive(Drop)]
pub struct Table {
    pub limit: u32,
    pub barriers: Vec<u64>,
    pub seats: Vec<Seat>,
    pub passed: Passed,
    pub waits: usize,
    pub owners: Owners,
    pub start: usize,
    pub ways: Vec<usize>,
    pub issued: u32,
}

// Whether the seat's thread is known to have ended.
fn has_ended(seat: &Seat) -> bool
    ensures { result ≡ Rattle.task_ast.specs.Table.has_ended (seat_of seat.now) }
{
    match &seat.next {
        Some(next) => next.sync.is_end(),
        None => false,
    }
}

/// A thread that stands at its start.
pub fn new_seat() -> Seat
    ensures seat { seat_of result ≡ Rattle.task_ast.specs.Table.new_seat }
    ensures onward { result.onward ≡ 0 }
{
    Seat {
        next: Some(Next {
            sync: SyncOp::Start,
            line: 0,
        }),
        last: None,
        passed: false,
        stand: Stand::Away,
        onward: 0,
    }
}

// Whether the thread is known to have ended, and has not passed.
fn is_idle(seat: &Seat) -> bool
    ensures { result ≡ is_idle (seat_of seat.now) }
{
    has_ended(seat) && !seat.passed
}

impl Passed {
    /// No thread has passed.
    pub fn none() -> Passed {
        Passed { first: 1, last: 0 }
    }

    /// One more thread may have passed.
    pub fn with(self, t: usize) -> Passed
        ensures wider { (u : ℕ) → self.first ≤ u → u ≤ self.last → (result.first ≤ u) × (u ≤ result.last) }
        ensures thread { (result.first ≤ t) × (t ≤ result.last) }
    {
        if self.last < self.first {
            return Passed { first: t, last: t };
        }
        Passed {
            first: self.first.min(t),
            last: self.last.max(t),
        }
    }
}

// No walk goes on beyond any thread.
fn forget(seats: &mut [Seat])
    ensures seats { map seat_of seats.new ≡ map seat_of seats.old }
    ensures onward { (t n : ℕ) → slice_get (map onward_of seats.new) t ≡ Some n → n ≡ 0 }
{
    for seat in seats.iter_mut() {
        seat.onward = 0;
    }
}

// No walk goes over this thread any more.
fn uncover(seats: &mut [Seat], t: usize)
    requires exists { t < length seats.old }
    requires idle { IdleOver (map onward_of seats.old) (map seat_of seats.old) }
    ensures seats { map seat_of seats.new ≡ map seat_of seats.old }
    ensures idle { IdleOver (map onward_of seats.new) (map seat_of seats.old) }
    ensures uncovered { Uncovered (map onward_of seats.new) t }
{
    if is_idle(&seats[t]) {
        forget(seats);
    }
}

impl Table {
    /// The table at the start of a run, with one thread.
    pub fn new(
        alloc: Global,
        limit: u32,
        barriers: Vec<u64>,
        locks: usize,
    ) -> Result<Table, AllocError>
        ensures table { IfOk result (λ t. table_of t ≡ record { limit = limit; barriers = barriers.items; seats = Rattle.task_ast.specs.Table.new_seat ∷ []; owners = replicate locks None; token = None; issued = 0 }) }
        ensures held { IfOk result (λ t. AreHeld t.owners.owners.items t.owners.held.items) }
        ensures walks { IfOk result WalksStand }
    {
        let owners = Owners::new(alloc, locks)?;
        let mut seats = Vec::new(alloc);
        seats.push(new_seat())?;
        Ok(Table {
            limit,
            barriers,
            seats,
            passed: Passed::none(),
            waits: 0,
            owners,
            start: 0,
            ways: Vec::new(alloc),
            issued: 0,
        })
    }

    /// The first of these threads that has not ended, as far as is known.
    pub fn first_live(&self, from: usize, to: usize) -> Option<usize>
        requires walks { WalksStand self.now }
        requires within { to ≤ length self.now.seats.items }
        ensures found { look (table_of self.now) (numbers from (to - from)) ≡ look_of (table_of self.now) result }
        ensures below { IfSome result (λ t. t < to) }
        ensures live { IfSome result (λ t. is_known_end (next_of (table_of self.now) t) ≡ false) }
    {
        let mut t = from;
        while t < to {
            let seat = &self.seats[t];
            if !has_ended(seat) {
                return Some(t);
            }
            t = (t + 1).max(seat.onward);
        }
        None
    }

    // The first thread from one on that is not idle, or the number of all.
    fn first_busy(&self, from: usize) -> usize
        requires walks { WalksStand self.now }
        ensures { IdleBetween from result (map seat_of self.now.seats.items) }
    {
        let mut t = from;
        while t < self.seats.len() {
            let seat = &self.seats[t];
            if !is_idle(seat) {
                return t;
            }
            t = (t + 1).max(seat.onward);
        }
        t
    }

    /// The way from a thread over idle ones is kept, so that the next walk takes it in one step.
    pub fn shorten(&mut self, from: usize)
        requires walks { WalksStand self.old }
        ensures table { table_of self.new ≡ table_of self.old }
        ensures owners { self.new.owners ≡ self.old.owners }
        ensures walks { WalksStand self.new }
    {
        let busy = self.first_busy(from);
        if from < busy {
            self.seats[from].onward = busy;
        }
    }

    /// The thread that the token comes to.
    pub fn token_at(&self) -> Option<usize>
        requires walks { WalksStand self.now }
        ensures found { look (table_of self.now) (ring (table_of self.now).token (length (table_of self.now).seats)) ≡ look_of (table_of self.now) result }
        ensures below { IfSome result (λ t. t < length self.now.seats.items) }
        ensures live { IfSome result (λ t. is_known_end (next_of (table_of self.now) t) ≡ false) }
    {
        if let Some(t) = self.first_live(self.start, self.seats.len()) {
            return Some(t);
        }
        self.first_live(0, self.start)
    }

    /// The next synchronisation of a thread becomes known.
    pub fn learn(&mut self, t: usize, next: Next)
        requires exists { t < length self.old.seats.items }
        requires walks { WalksStand self.old }
        ensures table { table_of self.new ≡ learning (table_of self.old) t next }
        ensures owners { self.new.owners ≡ self.old.owners }
        ensures walks { WalksStand self.new }
    {
        uncover(&mut self.seats, t);
        wake(&mut self.ways, &self.seats, t);
        self.seats[t].next = Some(next);
    }
}

/// No thread has passed since the last change.
pub fn clear(seats: &mut [Seat], passed: Passed)
    requires idle { IdleOver (map onward_of seats.old) (map seat_of seats.old) }
    requires passed { PassedWithin passed.first passed.last (map seat_of seats.old) }
    ensures seats { map seat_of seats.new ≡ map unpassed (map seat_of seats.old) }
    ensures onward { map onward_of seats.new ≡ map onward_of seats.old }
{
    let mut t = passed.first;
    while t <= passed.last && t < seats.len() {
        let onward = seats[t].onward;
        seats[t].passed = false;
        t = (t + 1).max(onward);
    }
}
