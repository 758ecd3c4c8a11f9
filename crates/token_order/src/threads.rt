// The threads, and the one that the token comes to.

ghost use Rattle.std.specs.Prelude.{◌≡◌, ℕ, ◌<◌, ◌≤◌, ◌-◌, false, length, map, Option, Some, None, IfSome, IfOk, replicate, slice_get, vec_capacity, nat_lt, nat_le, ◌&&◌};
ghost use Rattle.gp_base.specs.declared.limits.TheConstants.{MOST_THREADS};
ghost use Rattle.std.specs.Option.{option_copied};
ghost use Rattle.task_ast.specs.Looking.{start_of, look_of};
ghost use Rattle.task_ast.specs.Reached.{start_table};
ghost use Rattle.task_ast.specs.Table.{next_of, is_known_end, learning, unpassed};
ghost use Rattle.task_ast.specs.meaning.Table.{numbers, ring};
ghost use Rattle.task_ast.specs.Turn.{look};
ghost use Rattle.ended_seats.specs.Idle.{is_idle, IdleBetween, IdleOver, Uncovered, PassedWithin};
ghost use Rattle.token_order.specs.View.{table, seat_of, onward_of, StandsInside, WalksStand, awaited};

use gp_base::Pos;
use gp_base::limits::MOST_THREADS;
use std::alloc::{AllocError, Global};
use task_ast::{Next, SyncOp};

/// How a thread stands to the barrier that comes next.
#[derive(Drop, Clone, Copy)]
pub enum Stand {
    Away,
    Waits,
    Released,
}

/// One thread: its next synchronisation where that is known, the position of its last subthread, whether it has passed
/// since the last issue or arrival, and how it stands to a barrier. Each thread from it up to `onward` is known to have
/// ended, and has not passed, so a walk over the threads goes on there.
#[derive(Drop)]
pub struct Seat {
    pub next: Option<Next>,
    pub last: Option<u32>,
    pub passed: bool,
    pub stand: Stand,
    pub onward: usize,
}

/// The threads that may have passed: those from the first to the last.
#[derive(Drop, Clone, Copy)]
pub struct Passed {
    pub first: usize,
    pub last: usize,
}

/// The threads in the order in which they were forked, the owner of each lock cell, and the thread whose turn was last.
/// At most so many threads wait at barriers.
#[derive(Drop)]
pub struct Threads {
    pub limit: u32,
    pub barriers: Vec<u32>,
    pub seats: Vec<Seat>,
    pub passed: Passed,
    pub waits: usize,
    pub owners: Vec<Option<u32>>,
    pub token: Option<u32>,
    pub issued: u32,
}

/// A thread that has begun no subthread.
pub fn new_seat(next: Next) -> Seat
    ensures seat { seat_of result ≡ record (Rattle.task_ast.specs.Table.new_seat) { next = Some next } }
    ensures onward { result.onward ≡ 0 }
{
    Seat {
        next: Some(next),
        last: None,
        passed: false,
        stand: Stand::Away,
        onward: 0,
    }
}

/// Whether the thread is known to have ended.
pub fn has_ended(seat: &Seat) -> bool
    ensures { result ≡ Rattle.task_ast.specs.Table.has_ended (seat_of seat.now) }
{
    match &seat.next {
        Some(next) => next.sync.is_end(),
        None => false,
    }
}

// Whether the thread is known to have ended, and has not passed.
fn is_idle(seat: &Seat) -> bool
    ensures { result ≡ is_idle (seat_of seat.now) }
{
    has_ended(seat) && !seat.passed
}

impl Passed {
    /// No thread has passed.
    pub fn none() -> Passed {
        Passed {
            first: usize::MAX,
            last: 0,
        }
    }

    /// One more thread may have passed.
    pub fn with(self, t: usize) -> Passed
        ensures wider { (u : ℕ) → self.first ≤ u → u ≤ self.last → (result.first ≤ u) × (u ≤ result.last) }
        ensures thread { (result.first ≤ t) × (t ≤ result.last) }
    {
        if self.last < self.first {
            Passed { first: t, last: t }
        } else {
            Passed {
                first: self.first.min(t),
                last: self.last.max(t),
            }
        }
    }

    /// Whether one of the threads from one on up to a place may have passed.
    pub fn meets(self, from: usize, past: usize) -> bool
        ensures { result ≡ nat_lt self.first past && nat_le from self.last }
    {
        self.first < past && from <= self.last
    }
}

// No walk goes on beyond any thread.
fn forget(seats: &mut [Seat])
    ensures seats { map seat_of seats.new ≡ map seat_of seats.old }
    ensures onward { (t n : ℕ) → slice_get (map onward_of seats.new) t ≡ Some n → n ≡ 0 }
{
    for seat in seats.iter_mut() {
        seat.onward = 0;
    }
}

// No walk goes over this thread any more.
fn uncover(seats: &mut [Seat], t: usize)
    requires exists { t < length seats.old }
    requires idle { IdleOver (map onward_of seats.old) (map seat_of seats.old) }
    ensures seats { map seat_of seats.new ≡ map seat_of seats.old }
    ensures idle { IdleOver (map onward_of seats.new) (map seat_of seats.old) }
    ensures uncovered { Uncovered (map onward_of seats.new) t }
{
    if is_idle(&seats[t]) {
        forget(seats);
    }
}

impl Threads {
    /// One thread, of which nothing was issued. The error is that memory is out.
    pub fn new(
        alloc: Global,
        locks: u32,
        barriers: Vec<u32>,
        limit: u32,
        main: Next,
    ) -> Result<Threads, AllocError>
        ensures start { IfOk result (λ threads. table threads ≡ start_table limit barriers.items (replicate locks None) main) }
        ensures inside { IfOk result StandsInside }
    {
        let owners = Vec::from_elem(alloc, None, locks as usize)?;
        let mut seats = Vec::new(alloc);
        seats.push(new_seat(main))?;
        Ok(Threads {
            limit,
            barriers,
            seats,
            passed: Passed::none(),
            waits: 0,
            owners,
            token: None,
            issued: 0,
        })
    }

    /// The first of the threads `from..to` that isn't known to have ended.
    pub fn first_live(&self, from: usize, to: usize) -> Option<u32>
        requires walks { WalksStand self.now }
        requires within { to ≤ length self.now.seats.items }
        requires few { length self.now.seats.items ≤ MOST_THREADS }
        ensures found { look (table self.now) (numbers from (to - from)) ≡ look_of (table self.now) result }
        ensures below { IfSome result (λ t. t < to) }
        ensures live { IfSome result (λ t. is_known_end (next_of (table self.now) t) ≡ false) }
    {
        let mut t = from;
        while t < to {
            let seat = &self.seats[t];
            if !has_ended(seat) {
                return Some(t as u32);
            }
            t = (t + 1).max(seat.onward);
        }
        None
    }

    // The first thread from one on that is not idle, or the number of all.
    fn first_busy(&self, from: usize) -> usize
        requires walks { WalksStand self.now }
        ensures { IdleBetween from result (map seat_of self.now.seats.items) }
    {
        let mut t = from;
        while t < self.seats.len() {
            let seat = &self.seats[t];
            if !is_idle(seat) {
                return t;
            }
            t = (t + 1).max(seat.onward);
        }
        t
    }

    /// The way from a thread over idle ones is kept, so that the next walk takes it in one step.
    pub fn shorten(&mut self, from: usize)
        requires inside { StandsInside self.old }
        ensures table { table self.new ≡ table self.old }
        ensures capacity { vec_capacity self.new.seats ≡ vec_capacity self.old.seats }
        ensures inside { StandsInside self.new }
    {
        let busy = self.first_busy(from);
        if from < busy {
            self.seats[from].onward = busy;
        }
    }

    /// The first thread after the one whose turn was last.
    pub fn start(&self) -> usize
        requires inside { StandsInside self.now }
        ensures start { result ≡ start_of self.now.token }
        ensures within { result ≤ length self.now.seats.items }
    {
        match self.token {
            Some(last) => last as usize + 1,
            None => 0,
        }
    }

    /// The thread that the token comes to.
    pub fn token_at(&self) -> Option<u32>
        requires inside { StandsInside self.now }
        ensures below { IfSome result (λ t. t < length self.now.seats.items) }
        ensures live { IfSome result (λ t. is_known_end (next_of (table self.now) t) ≡ false) }
        ensures found { look (table self.now) (ring (table self.now).token (length (table self.now).seats)) ≡ look_of (table self.now) result }
    {
        let start = self.start();
        if let Some(t) = self.first_live(start, self.seats.len()) {
            return Some(t);
        }
        self.first_live(0, start)
    }

    /// A thread's next synchronisation, where it is known.
    pub fn next_of(&self, t: u32) -> Option<&Next>
        ensures { option_copied result ≡ next_of (table self.now) t }
    {
        self.seats.get(t as usize)?.next.as_ref()
    }

    /// The position of the thread's last subthread, where the next synchronisation is not known.
    pub fn awaits(&self, t: u32) -> Option<Pos>
        ensures { result ≡ awaited (table self.now) t }
    {
        let seat = self.seats.get(t as usize)?;
        if seat.next.is_some() {
            return None;
        }
        match seat.last {
            Some(position) => Some(Pos(position)),
            None => None,
        }
    }

    /// The next synchronisation of a thread becomes known.
    pub fn learn(&mut self, t: u32, next: Next)
        requires exists { t < length self.old.seats.items }
        requires walks { WalksStand self.old }
        ensures learnt { table self.new ≡ learning (table self.old) t next }
        ensures capacity { vec_capacity self.new.seats ≡ vec_capacity self.old.seats }
        ensures walks { WalksStand self.new }
    {
        uncover(&mut self.seats, t as usize);
        self.seats[t as usize].next = Some(next);
    }
}

/// No thread has passed since the last change.
pub fn unpass_all(seats: &mut [Seat], passed: Passed)
    requires idle { IdleOver (map onward_of seats.old) (map seat_of seats.old) }
    requires passed { PassedWithin passed.first passed.last (map seat_of seats.old) }
    ensures seats { map seat_of seats.new ≡ map unpassed (map seat_of seats.old) }
    ensures onward { map onward_of seats.new ≡ map onward_of seats.old }
{
    let mut t = passed.first;
    while t <= passed.last && t < seats.len() {
        let onward = seats[t].onward;
        seats[t].passed = false;
        t = (t + 1).max(onward);
    }
}
