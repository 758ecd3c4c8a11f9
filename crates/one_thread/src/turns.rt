// The turn of the thread that the token comes to.
ghost use Rattle.std.specs.Prelude.{◌≡◌, ℕ, ℤ, ◌<◌, length, map, List, Some, None, IfOk, OnOk, slice_get, unwrap_or, count_by, false, ⊤};
ghost use Rattle.gp_base.specs.declared.ending.End.TheVariants.{Stuck};
ghost use Rattle.task_ast.specs.Looking.{begun, joined_in, is_free_to_go};
ghost use Rattle.task_ast.specs.declared.sync.Next.{Next as NextThere};
ghost use Rattle.task_ast.specs.declared.sync.SyncOp.TheVariants as sync;
ghost use Rattle.task_ast.specs.meaning.Table.{numbers};
ghost use Rattle.task_ast.specs.Table.{next_of, waits_at, is_known_end};
ghost use Rattle.task_ast.specs.meaning.Turn.{child_of};
ghost use Rattle.task_ast.specs.Turn.{turn, next_issue, tried, issuing, passing, look, seats_after, deadlocked, met, arrived, released_at};
ghost use Rattle.one_thread.specs.Holding.{AreHeld};
ghost use Rattle.ended_seats.specs.Idle.{IdleOver, onward_after};
ghost use Rattle.one_thread.specs.View.{table_of, seat_of, onward_of, gives, gave, Halts, WalksStand};

use crate::seats::{Passed, Seat, Stand, Table, clear, new_seat};
use crate::sleeping::wake;
use gp_base::limits::MOST_THREADS;
use gp_base::{End, Pos, ThreadNo, Why};
use std::alloc::{AllocError, Global};
use task_ast::{Next, SyncOp};

/// What a turn gives.
#[derive(Drop)]
pub enum Turn {
    Issue(usize, Next, Option<usize>),
    Pass,
    Needs(usize),
    Ended(End),
}

/// A number of a thread in 32 bits. A run never has more threads.
pub fn thread_number(t: usize) -> Result<ThreadNo, AllocError>
    ensures { IfOk result (λ number. number ≡ t) }
{
    match u32::try_from(t) {
        Ok(number) => Ok(ThreadNo(number)),
        Err(_) => Err(AllocError),
    }
}

// The run ends at a thread's next synchronisation.
fn stuck(why: Why, t: usize, line: u32) -> Result<Turn, AllocError>
    ensures { IfOk result (λ turn. turn ≡ Turn.Ended (Stuck why t line)) }
{
    let thread = thread_number(t)?;
    Ok(Turn::Ended(End::Stuck { why, thread, line }))
}

// A thread's subthread begins.
fn begin(seat: &mut Seat, issued: u32) -> Option<Next>
    ensures next { result ≡ seat.old.next }
    ensures seat { seat_of seat.new ≡ begun issued (seat_of seat.old) }
    ensures onward { onward_of seat.new ≡ onward_of seat.old }
{
    seat.last = Some(issued);
    seat.passed = false;
    seat.stand = Stand::Away;
    seat.next.take()
}

// A forked thread stands last.
fn add_child(seats: &mut Vec<Seat>, sync: &SyncOp) -> Result<Option<usize>, AllocError>
    ensures seats { OnOk result (map seat_of seats.new.items ≡ seats_after sync.now (map seat_of seats.old.items)) }
    ensures child { IfOk result (λ child. child ≡ child_of sync.now (length seats.old.items)) }
    ensures onward { OnOk result (map onward_of seats.new.items ≡ onward_after sync.now (map onward_of seats.old.items)) }
{
    let child = seats.len();
    match sync {
        SyncOp::Fork { .. } => {
            seats.push(new_seat())?;
            Ok(Some(child))
        }
        _ => Ok(None),
    }
}

/// The thread that a join names, where there is one.
pub fn joined(h: i64, threads: usize) -> Option<usize>
    ensures { result ≡ joined_in h threads }
{
    if h < 0 {
        return None;
    }
    let h = h as usize;
    if h < threads { Some(h) } else { None }
}

impl Table {
    // The thread passes.
    fn pass(&mut self, t: usize) -> Turn
        requires exists { t < length self.old.seats.items }
        requires live { is_known_end (next_of (table_of self.old) t) ≡ false }
        requires walks { WalksStand self.old }
        ensures turn { passing (table_of self.old) t ≡ gives result (table_of self.new) }
        ensures owners { self.new.owners ≡ self.old.owners }
        ensures walks { WalksStand self.new }
    {
        self.seats[t].passed = true;
        self.passed = self.passed.with(t);
        self.start = t + 1;
        Turn::Pass
    }

    // The thread performs its next synchronisation and begins a subthread, unless the limit is reached.
    fn issue(&mut self, alloc: Global, t: usize) -> Result<Turn, AllocError>
        requires exists { t < length self.old.seats.items }
        requires live { is_known_end (next_of (table_of self.old) t) ≡ false }
        requires walks { WalksStand self.old }
        requires held { AreHeld self.old.owners.owners.items self.old.owners.held.items }
        ensures turn { IfOk result (λ r. (next : NextThere) → next_of (table_of self.old) t ≡ Some next → issuing (table_of self.old) t next ≡ gives r (table_of self.new)) }
        ensures held { OnOk result (AreHeld self.new.owners.owners.items self.new.owners.held.items) }
        ensures walks { OnOk result (WalksStand self.new) }
    {
        if self.issued >= self.limit {
            return Ok(Turn::Ended(End::Spent(Pos(self.limit))));
        }
        wake(&mut self.ways, &self.seats, t);
        let Some(next) = begin(&mut self.seats[t], self.issued) else {
            return Ok(Turn::Needs(t));
        };
        clear(&mut self.seats, self.passed);
        self.passed = Passed::none();
        self.owners.hand_over(alloc, &next.sync, t)?;
        let child = add_child(&mut self.seats, &next.sync)?;
        self.start = t + 1;
        self.issued += 1;
        Ok(Turn::Issue(t, next, child))
    }

    // A lock is taken where nobody owns it.
    fn lock(&mut self, alloc: Global, t: usize, lock: u32) -> Result<Turn, AllocError>
        requires exists { t < length self.old.seats.items }
        requires live { is_known_end (next_of (table_of self.old) t) ≡ false }
        requires walks { WalksStand self.old }
        requires held { AreHeld self.old.owners.owners.items self.old.owners.held.items }
        ensures turn { IfOk result (λ r. (next : NextThere) → next_of (table_of self.old) t ≡ Some next → tried (sync.Lock lock) (table_of self.old) t next ≡ gives r (table_of self.new)) }
        ensures held { OnOk result (AreHeld self.new.owners.owners.items self.new.owners.held.items) }
        ensures walks { OnOk result (WalksStand self.new) }
    {
        if self.owners.is_free(lock) {
            self.issue(alloc, t)
        } else {
            Ok(self.pass(t))
        }
    }

    // A join waits for the end of its thread.
    fn join(&mut self, alloc: Global, t: usize, h: i64, line: u32) -> Result<Turn, AllocError>
        requires exists { t < length self.old.seats.items }
        requires live { is_known_end (next_of (table_of self.old) t) ≡ false }
        requires walks { WalksStand self.old }
        requires held { AreHeld self.old.owners.owners.items self.old.owners.held.items }
        ensures turn { IfOk result (λ r. (next : NextThere) → next_of (table_of self.old) t ≡ Some next → next.line ≡ line → tried (sync.Join h) (table_of self.old) t next ≡ gives r (table_of self.new)) }
        ensures held { OnOk result (AreHeld self.new.owners.owners.items self.new.owners.held.items) }
        ensures walks { OnOk result (WalksStand self.new) }
    {
        let Some(other) = joined(h, self.seats.len()) else {
            return stuck(Why::Join, t, line);
        };
        match &self.seats[other].next {
            None => Ok(Turn::Needs(other)),
            Some(next) => {
                if next.sync.is_end() {
                    self.issue(alloc, t)
                } else {
                    Ok(self.pass(t))
                }
            }
        }
    }

    // A fork finds a seat while there are fewer threads than the most.
    fn fork(&mut self, alloc: Global, t: usize, line: u32) -> Result<Turn, AllocError>
        requires exists { t < length self.old.seats.items }
        requires live { is_known_end (next_of (table_of self.old) t) ≡ false }
        requires walks { WalksStand self.old }
        requires held { AreHeld self.old.owners.owners.items self.old.owners.held.items }
        ensures turn { IfOk result (λ r. (next : NextThere) (task : ℕ) (arguments : List ℤ) → next_of (table_of self.old) t ≡ Some next → next.line ≡ line → tried (sync.Fork task arguments) (table_of self.old) t next ≡ gives r (table_of self.new)) }
        ensures held { OnOk result (AreHeld self.new.owners.owners.items self.new.owners.held.items) }
        ensures walks { OnOk result (WalksStand self.new) }
    {
        if self.seats.len() < MOST_THREADS as usize {
            self.issue(alloc, t)
        } else {
            stuck(Why::Threads, t, line)
        }
    }

    // The thread comes to a barrier, and waits.
    fn come(&mut self, t: usize)
        requires exists { t < length self.old.seats.items }
        requires live { is_known_end (next_of (table_of self.old) t) ≡ false }
        requires walks { WalksStand self.old }
        ensures table { table_of self.new ≡ arrived (table_of self.old) t }
        ensures threads { length self.new.seats.items ≡ length self.old.seats.items }
        ensures owners { self.new.owners ≡ self.old.owners }
        ensures walks { WalksStand self.new }
    {
        clear(&mut self.seats, self.passed);
        self.passed = Passed::none();
        self.seats[t].stand = Stand::Waits;
        self.waits = self.waits.saturating_add(1);
    }

    // Where the stated number of threads wait at a barrier, all are released.
    fn open(&mut self, barrier: u32)
        requires walks { WalksStand self.old }
        ensures table { table_of self.new ≡ met (table_of self.old) barrier }
        ensures threads { length self.new.seats.items ≡ length self.old.seats.items }
        ensures owners { self.new.owners ≡ self.old.owners }
        ensures walks { WalksStand self.new }
    {
        let stated = stated(&self.barriers, barrier);
        if (self.waits as u64) < stated {
            return;
        }
        let there = waiting(&self.seats, barrier);
        if stated <= there as u64 {
            release(&mut self.seats, barrier);
            self.waits = self.waits.saturating_sub(there);
            self.ways.clear();
        }
    }

    // The thread arrives at a barrier, and where the stated number wait there, all are released.
    fn arrive(&mut self, t: usize, barrier: u32)
        requires exists { t < length self.old.seats.items }
        requires live { is_known_end (next_of (table_of self.old) t) ≡ false }
        requires walks { WalksStand self.old }
        ensures table { table_of self.new ≡ met (arrived (table_of self.old) t) barrier }
        ensures threads { length self.new.seats.items ≡ length self.old.seats.items }
        ensures owners { self.new.owners ≡ self.old.owners }
        ensures live { is_known_end (next_of (table_of self.new) t) ≡ false }
        ensures walks { WalksStand self.new }
    {
        self.come(t);
        self.open(barrier);
    }

    // A released thread goes on, and another waits.
    fn meet(&mut self, alloc: Global, t: usize, barrier: u32) -> Result<Turn, AllocError>
        requires exists { t < length self.old.seats.items }
        requires live { is_known_end (next_of (table_of self.old) t) ≡ false }
        requires walks { WalksStand self.old }
        requires held { AreHeld self.old.owners.owners.items self.old.owners.held.items }
        ensures turn { IfOk result (λ r. (next : NextThere) → next_of (table_of self.old) t ≡ Some next → tried (sync.Barrier barrier) (table_of self.old) t next ≡ gives r (table_of self.new)) }
        ensures held { OnOk result (AreHeld self.new.owners.owners.items self.new.owners.held.items) }
        ensures walks { OnOk result (WalksStand self.new) }
    {
        if is_away(&self.seats[t]) {
            self.arrive(t, barrier);
        }
        if is_released(&self.seats[t]) {
            self.issue(alloc, t)
        } else {
            Ok(self.pass(t))
        }
    }

    // Nobody can go on: the least-numbered thread that has not ended is told.
    fn deadlock(&self) -> Result<Turn, AllocError>
        requires walks { WalksStand self.now }
        ensures { IfOk result (λ r. deadlocked (look (table_of self.now) (numbers 0 (length (table_of self.now).seats))) ≡ gives r (table_of self.now)) }
    {
        let Some(t) = self.first_live(0, self.seats.len()) else {
            return Ok(Turn::Ended(End::Finished));
        };
        let Some(seat) = self.seats.get(t) else {
            return Ok(Turn::Needs(t));
        };
        match &seat.next {
            Some(next) => stuck(Why::Deadlock, t, next.line),
            None => Ok(Turn::Needs(t)),
        }
    }

    // The turn of the thread that the token comes to, by its rules.
    fn by_rules(&mut self, alloc: Global) -> Result<Turn, AllocError>
        requires held { AreHeld self.old.owners.owners.items self.old.owners.held.items }
        requires walks { WalksStand self.old }
        ensures turn { IfOk result (λ r. turn (table_of self.old) ≡ gives r (table_of self.new)) }
        ensures held { OnOk result (AreHeld self.new.owners.owners.items self.new.owners.held.items) }
        ensures walks { OnOk result (WalksStand self.new) }
    {
        let Some(t) = self.token_at() else {
            return Ok(Turn::Ended(End::Finished));
        };
        let Some(seat) = self.seats.get(t) else {
            return Ok(Turn::Needs(t));
        };
        let last = seat.last.unwrap_or(0);
        let Some(next) = &seat.next else {
            return Ok(Turn::Needs(t));
        };
        if seat.passed {
            return self.deadlock();
        }
        let line = next.line;
        match &next.sync {
            SyncOp::Lock(lock) => {
                let lock = lock.0;
                self.lock(alloc, t, lock)
            }
            SyncOp::Fork { .. } => self.fork(alloc, t, line),
            SyncOp::Join(h) => {
                let h = *h;
                self.join(alloc, t, h, line)
            }
            SyncOp::Barrier(barrier) => {
                let barrier = *barrier;
                self.meet(alloc, t, barrier)
            }
            SyncOp::BadIndex => stuck(Why::Index, t, line),
            SyncOp::Spent => Ok(Turn::Ended(End::Spent(Pos(last)))),
            _ => self.issue(alloc, t),
        }
    }

    // One turn. Ways over threads that have ended are kept first, so that its looks are short.
    fn turn(&mut self, alloc: Global) -> Result<Turn, AllocError>
        requires held { AreHeld self.old.owners.owners.items self.old.owners.held.items }
        requires walks { WalksStand self.old }
        ensures turn { IfOk result (λ r. turn (table_of self.old) ≡ gives r (table_of self.new)) }
        ensures held { OnOk result (AreHeld self.new.owners.owners.items self.new.owners.held.items) }
        ensures walks { OnOk result (WalksStand self.new) }
    {
        let start = self.start;
        self.shorten(0);
        self.shorten(start);
        self.by_rules(alloc)
    }

    /// Turns up to the first that does not pass.
    pub fn next_issue(&mut self, alloc: Global) -> Result<Turn, AllocError>
        requires held { AreHeld self.old.owners.owners.items self.old.owners.held.items }
        requires walks { WalksStand self.old }
        ensures turn { IfOk result (λ r. next_issue (table_of self.old) ≡ gave r (table_of self.new)) }
        ensures held { OnOk result (AreHeld self.new.owners.owners.items self.new.owners.held.items) }
        ensures walks { OnOk result (WalksStand self.new) }
    {
        loop {
            self.skip()?;
            match self.turn(alloc)? {
                Turn::Pass => {}
                turn => return Ok(turn),
            }
        }
    }
}

// The stated number of a barrier.
fn stated(barriers: &[u64], barrier: u32) -> u64
    ensures { result ≡ unwrap_or (slice_get barriers.now barrier) 0 }
{
    match barriers.get(barrier as usize) {
        Some(number) => *number,
        None => 0,
    }
}

// Whether the thread waits at this barrier.
fn is_waiting(seat: &Seat, barrier: u32) -> bool
    ensures { result ≡ waits_at barrier (seat_of seat.now) }
{
    if !matches!(seat.stand, Stand::Waits) {
        return false;
    }
    match &seat.next {
        Some(next) => match &next.sync {
            SyncOp::Barrier(other) => barrier == *other,
            SyncOp::Start => false,
            SyncOp::Lock(_) => false,
            SyncOp::Unlock(_) => false,
            SyncOp::Fork { .. } => false,
            SyncOp::Join(_) => false,
            SyncOp::Settle { .. } => false,
            SyncOp::End => false,
            SyncOp::BadIndex => false,
            SyncOp::Spent => false,
        },
        None => false,
    }
}

// How many threads wait at this barrier.
fn waiting(seats: &[Seat], barrier: u32) -> usize
    requires idle { IdleOver (map onward_of seats.now) (map seat_of seats.now) }
    ensures { result ≡ count_by (waits_at barrier) (map seat_of seats.now) }
{
    let mut number: usize = 0;
    let mut t = 0;
    while t < seats.len() {
        let seat = &seats[t];
        if is_waiting(seat, barrier) {
            number += 1;
        }
        t = (t + 1).max(seat.onward);
    }
    number
}

// The threads that wait at this barrier are released.
fn release(seats: &mut [Seat], barrier: u32)
    requires idle { IdleOver (map onward_of seats.old) (map seat_of seats.old) }
    ensures seats { map seat_of seats.new ≡ map (released_at barrier) (map seat_of seats.old) }
    ensures onward { map onward_of seats.new ≡ map onward_of seats.old }
{
    let mut t = 0;
    while t < seats.len() {
        let onward = seats[t].onward;
        if is_waiting(&seats[t], barrier) {
            seats[t].stand = Stand::Released;
        }
        t = (t + 1).max(onward);
    }
}

// Whether the thread has not arrived.
fn is_away(seat: &Seat) -> bool
    ensures { result ≡ Rattle.task_ast.specs.meaning.Turn.is_away (seat_of seat.now).stand }
{
    matches!(seat.stand, Stand::Away)
}

// Whether the thread was released.
fn is_released(seat: &Seat) -> bool
    ensures { result ≡ is_free_to_go (seat_of seat.now).stand }
{
    matches!(seat.stand, Stand::Released)
}
