// The rules of a turn.

ghost use Rattle.std.specs.Prelude.{◌≡◌, ℕ, ◌<◌, ◌≤◌, ◌+◌, length, map, List, Option, Some, None, ℤ, vec_len, vec_capacity, is_none, slice_get, slice_set, unwrap_or, count_by, nat_lt, false};
ghost use Rattle.std.specs.Option.{option_and_then};
ghost use Rattle.gp_base.specs.declared.ending.End.TheVariants as ends;
ghost use Rattle.gp_base.specs.declared.limits.TheConstants.{MOST_THREADS};
ghost use Rattle.task_ast.specs.Looking.{begun, joined_in, is_free_to_go};
ghost use Rattle.task_ast.specs.declared.sync.SyncOp.TheVariants as sync;
ghost use Rattle.task_ast.specs.Table.{is_known_end, next_of, waits_at, owner_in};
ghost use Rattle.task_ast.specs.meaning.Table.{Away, numbers};
ghost use Rattle.task_ast.specs.Turn.{tried, issuing, passing, look, seats_after, deadlocked, arrived, stand_of, released_at};
ghost use Rattle.task_ast.specs.meaning.Turn.{owners_after, child_of};
ghost use Rattle.task_ast.specs.meaning.Repeat.{More};
ghost use Rattle.ended_seats.specs.Idle.{IdleOver, onward_after};
ghost use Rattle.token_order.specs.View.{table, seat_of, onward_of, StandsInside, WalksStand};
ghost use Rattle.token_order.specs.declared.rules.Turn.TheVariants as here;
ghost use Rattle.token_order.specs.Turned.{Answered, is_let, goes_ahead, needed_at};

use crate::threads::{Passed, Seat, Stand, Threads, has_ended, new_seat, unpass_all};
use gp_base::limits::MOST_THREADS;
use gp_base::{End, Pos, ThreadNo, Why};
use task_ast::{Next, SyncOp};

/// What a turn answers: a thread begins a subthread, with the child where it forks one; the thread would begin one with
/// a settle, which waits to be let; the thread passes; the next synchronisation of a thread is needed; the run has
/// ended.
#[derive(Drop)]
pub enum Turn {
    Issue {
        thread: ThreadNo,
        begins: Next,
        child: Option<ThreadNo>,
    },
    Settles(ThreadNo),
    Pass,
    Needs(ThreadNo),
    Ended(End),
}

// The thread's next subthread begins.
fn begin(seat: &mut Seat, issued: u32) -> Option<Next>
    ensures next { result ≡ seat.old.next }
    ensures seat { seat_of seat.new ≡ begun issued (seat_of seat.old) }
    ensures onward { onward_of seat.new ≡ onward_of seat.old }
{
    seat.last = Some(issued);
    seat.passed = false;
    seat.stand = Stand::Away;
    seat.next.take()
}

// Writes the owner of a lock.
fn set_owner(owners: &mut Vec<Option<u32>>, lock: u32, owner: Option<u32>)
    ensures { owners.new.items ≡ slice_set owners.old.items lock owner }
{
    if (lock as usize) < owners.len() {
        owners[lock as usize] = owner;
    }
}

// A lock is taken or given back.
fn hand_over(owners: &mut Vec<Option<u32>>, sync: &SyncOp, t: u32)
    ensures { owners.new.items ≡ owners_after sync.now t owners.old.items }
{
    match sync {
        SyncOp::Lock(lock) => set_owner(owners, lock.0, Some(t)),
        SyncOp::Unlock(lock) => set_owner(owners, lock.0, None),
        _ => {}
    }
}

// A forked thread stands last.
fn add_child(seats: &mut Vec<Seat>, sync: &SyncOp) -> Option<ThreadNo>
    requires spare { vec_len seats.old < vec_capacity seats.old }
    requires few { length seats.old.items ≤ MOST_THREADS }
    ensures seats { map seat_of seats.new.items ≡ seats_after sync.now (map seat_of seats.old.items) }
    ensures child { result ≡ child_of sync.now (length seats.old.items) }
    ensures onward { map onward_of seats.new.items ≡ onward_after sync.now (map onward_of seats.old.items) }
    ensures capacity { vec_capacity seats.new ≡ vec_capacity seats.old }
{
    let child = sync.child_of(seats.len());
    if let SyncOp::Fork { .. } = sync {
        seats.push_reserved(new_seat(Next {
            sync: SyncOp::Start,
            line: 0,
        }));
    }
    child
}

// Whether nobody owns the lock.
fn is_free(owners: &[Option<u32>], lock: u32) -> bool
    ensures { result ≡ is_none (owner_in owners.now lock) }
{
    match owners.get(lock as usize) {
        Some(owner) => owner.is_none(),
        None => true,
    }
}

// Whether this thread is known to have ended; one that is not there has not.
fn is_over(seats: &[Seat], thread: usize) -> bool
    ensures { result ≡ is_known_end (option_and_then (λ s. s.next) (slice_get (map seat_of seats.now) thread)) }
{
    match seats.get(thread) {
        Some(seat) => has_ended(seat),
        None => false,
    }
}

// The thread that a join names, where there is one.
fn joined(h: i64, threads: usize) -> Option<u32>
    requires few { threads ≤ MOST_THREADS }
    ensures { result ≡ joined_in h threads }
{
    if h < 0 {
        return None;
    }
    let h = h.unsigned_abs();
    if h < threads as u64 {
        Some(h as u32)
    } else {
        None
    }
}

impl Threads {
    // Whether the thread that the token comes to goes on at this barrier.
    fn goes_ahead(&self, barrier: u32) -> bool
        requires inside { StandsInside self.now }
        ensures { result ≡ goes_ahead barrier (table self.now) }
    {
        let Some(t) = self.token_at() else {
            return true;
        };
        let seat = &self.seats[t as usize];
        if is_away(seat) {
            return !self.waits_for_more(barrier);
        }
        is_released(seat)
    }

    /// Whether the thread that the token comes to, which stands at it, isn't kept back: nobody owns its lock, the thread
    /// that it joins is known to have ended, and at a barrier it was released, or is the last of the stated number.
    pub fn lets(&self, sync: &SyncOp) -> bool
        requires inside { StandsInside self.now }
        ensures { result ≡ is_let (table self.now) sync.now }
    {
        match sync {
            SyncOp::Lock(lock) => is_free(&self.owners, lock.0),
            SyncOp::Join(thread) => *thread >= 0 && is_over(&self.seats, *thread as usize),
            SyncOp::Barrier(barrier) => self.goes_ahead(*barrier),
            _ => true,
        }
    }

    // The thread passes.
    fn pass(&mut self, t: u32)
        requires exists { t < length self.old.seats.items }
        requires live { is_known_end (next_of (table self.old) t) ≡ false }
        requires walks { WalksStand self.old }
        ensures passes { passing (table self.old) t ≡ More (table self.new) }
        ensures capacity { vec_capacity self.new.seats ≡ vec_capacity self.old.seats }
        ensures walks { WalksStand self.new }
    {
        self.seats[t as usize].passed = true;
        self.passed = self.passed.with(t as usize);
        self.token = Some(t);
    }

    // The thread performs its next synchronisation and begins a subthread, unless the limit is reached.
    fn issue(&mut self, t: u32) -> Turn
        requires exists { t < length self.old.seats.items }
        requires live { is_known_end (next_of (table self.old) t) ≡ false }
        requires walks { WalksStand self.old }
        requires few { length self.old.seats.items ≤ MOST_THREADS }
        requires spare { vec_len self.old.seats < vec_capacity self.old.seats }
        ensures answer { (next : Next) → next_of (table self.old) t ≡ Some next → Answered (issuing (table self.old) t next) (table self.old) result (table self.new) }
        ensures capacity { vec_capacity self.new.seats ≡ vec_capacity self.old.seats }
        ensures walks { WalksStand self.new }
    {
        if self.issued >= self.limit {
            return Turn::Ended(End::Spent(Pos(self.limit)));
        }
        let Some(next) = begin(&mut self.seats[t as usize], self.issued) else {
            return Turn::Needs(ThreadNo(t));
        };
        unpass_all(&mut self.seats, self.passed);
        self.passed = Passed::none();
        hand_over(&mut self.owners, &next.sync, t);
        let child = add_child(&mut self.seats, &next.sync);
        self.token = Some(t);
        self.issued += 1;
        Turn::Issue {
            thread: ThreadNo(t),
            begins: next,
            child,
        }
    }

    // A lock is taken where nobody owns it.
    fn lock(&mut self, t: u32, lock: u32) -> Turn
        requires exists { t < length self.old.seats.items }
        requires live { is_known_end (next_of (table self.old) t) ≡ false }
        requires walks { WalksStand self.old }
        requires few { length self.old.seats.items ≤ MOST_THREADS }
        requires spare { vec_len self.old.seats < vec_capacity self.old.seats }
        ensures answer { (next : Next) → next_of (table self.old) t ≡ Some next → Answered (tried (sync.Lock lock) (table self.old) t next) (table self.old) result (table self.new) }
        ensures capacity { vec_capacity self.new.seats ≡ vec_capacity self.old.seats }
        ensures walks { WalksStand self.new }
    {
        if is_free(&self.owners, lock) {
            return self.issue(t);
        }
        self.pass(t);
        Turn::Pass
    }

    // A join waits for the end of its thread.
    fn join(&mut self, t: u32, h: i64, line: u32) -> Turn
        requires exists { t < length self.old.seats.items }
        requires live { is_known_end (next_of (table self.old) t) ≡ false }
        requires walks { WalksStand self.old }
        requires few { length self.old.seats.items ≤ MOST_THREADS }
        requires spare { vec_len self.old.seats < vec_capacity self.old.seats }
        ensures answer { (next : Next) → next_of (table self.old) t ≡ Some next → next.line ≡ line → Answered (tried (sync.Join h) (table self.old) t next) (table self.old) result (table self.new) }
        ensures capacity { vec_capacity self.new.seats ≡ vec_capacity self.old.seats }
        ensures walks { WalksStand self.new }
    {
        let Some(other) = joined(h, self.seats.len()) else {
            return stuck(Why::Join, t, line);
        };
        match &self.seats[other as usize].next {
            None => Turn::Needs(ThreadNo(other)),
            Some(next) => {
                if next.sync.is_end() {
                    return self.issue(t);
                }
                self.pass(t);
                Turn::Pass
            }
        }
    }

    // A fork finds a seat while there are fewer threads than may exist.
    fn fork(&mut self, t: u32, line: u32) -> Turn
        requires exists { t < length self.old.seats.items }
        requires live { is_known_end (next_of (table self.old) t) ≡ false }
        requires walks { WalksStand self.old }
        requires few { length self.old.seats.items ≤ MOST_THREADS }
        requires spare { vec_len self.old.seats < vec_capacity self.old.seats }
        ensures answer { (next : Next) (task : ℕ) (arguments : List ℤ) → next_of (table self.old) t ≡ Some next → next.line ≡ line → Answered (tried (sync.Fork task arguments) (table self.old) t next) (table self.old) result (table self.new) }
        ensures capacity { vec_capacity self.new.seats ≡ vec_capacity self.old.seats }
        ensures walks { WalksStand self.new }
    {
        if self.seats.len() < MOST_THREADS as usize {
            return self.issue(t);
        }
        stuck(Why::Threads, t, line)
    }

    // The thread arrives at a barrier, which counts as a change.
    fn arrive(&mut self, t: u32)
        requires exists { t < length self.old.seats.items }
        requires live { is_known_end (next_of (table self.old) t) ≡ false }
        requires walks { WalksStand self.old }
        ensures table { table self.new ≡ arrived (table self.old) t }
        ensures length { length self.new.seats.items ≡ length self.old.seats.items }
        ensures spare { (vec_len self.new.seats ≡ vec_len self.old.seats) × (vec_capacity self.new.seats ≡ vec_capacity self.old.seats) }
        ensures live { is_known_end (next_of (table self.new) t) ≡ false }
        ensures walks { WalksStand self.new }
    {
        unpass_all(&mut self.seats, self.passed);
        self.passed = Passed::none();
        self.seats[t as usize].stand = Stand::Waits;
        self.waits = self.waits.saturating_add(1);
    }

    // The last thread arrives at a barrier, and all that wait there are released.
    fn open(&mut self, t: u32, barrier: u32)
        requires exists { t < length self.old.seats.items }
        requires live { is_known_end (next_of (table self.old) t) ≡ false }
        requires walks { WalksStand self.old }
        ensures table { table self.new ≡ record (arrived (table self.old) t) { seats = map (released_at barrier) (arrived (table self.old) t).seats } }
        ensures length { length self.new.seats.items ≡ length self.old.seats.items }
        ensures spare { (vec_len self.new.seats ≡ vec_len self.old.seats) × (vec_capacity self.new.seats ≡ vec_capacity self.old.seats) }
        ensures live { is_known_end (next_of (table self.new) t) ≡ false }
        ensures walks { WalksStand self.new }
    {
        self.arrive(t);
        let there = waiting(&self.seats, barrier);
        release(&mut self.seats, barrier);
        self.waits = self.waits.saturating_sub(there);
    }

    // Whether a thread that comes to this barrier is not the last of the stated number.
    fn waits_for_more(&self, barrier: u32) -> bool
        requires walks { WalksStand self.now }
        ensures { result ≡ nat_lt (count_by (waits_at barrier) (table self.now).seats + 1) (unwrap_or (slice_get (table self.now).barriers barrier) 0) }
    {
        let stated = stated(&self.barriers, barrier) as usize;
        self.waits.saturating_add(1) < stated || waiting(&self.seats, barrier) + 1 < stated
    }

    // A thread comes to a barrier. Where the stated number of threads are there, it goes on and all others may.
    fn come(&mut self, t: u32, barrier: u32) -> Turn
        requires exists { t < length self.old.seats.items }
        requires live { is_known_end (next_of (table self.old) t) ≡ false }
        requires walks { WalksStand self.old }
        requires few { length self.old.seats.items ≤ MOST_THREADS }
        requires spare { vec_len self.old.seats < vec_capacity self.old.seats }
        ensures answer { (next : Next) → next_of (table self.old) t ≡ Some next → next.sync ≡ sync.Barrier barrier → stand_of (table self.old) t ≡ Away → Answered (tried (sync.Barrier barrier) (table self.old) t next) (table self.old) result (table self.new) }
        ensures capacity { vec_capacity self.new.seats ≡ vec_capacity self.old.seats }
        ensures walks { WalksStand self.new }
    {
        if self.waits_for_more(barrier) {
            self.arrive(t);
            self.pass(t);
            return Turn::Pass;
        }
        if self.issued < self.limit {
            self.open(t, barrier);
            return self.issue(t);
        }
        Turn::Ended(End::Spent(Pos(self.limit)))
    }

    // A released thread goes on, and one that has arrived waits.
    fn meet(&mut self, t: u32, barrier: u32) -> Turn
        requires exists { t < length self.old.seats.items }
        requires live { is_known_end (next_of (table self.old) t) ≡ false }
        requires walks { WalksStand self.old }
        requires few { length self.old.seats.items ≤ MOST_THREADS }
        requires spare { vec_len self.old.seats < vec_capacity self.old.seats }
        ensures answer { (next : Next) → next_of (table self.old) t ≡ Some next → next.sync ≡ sync.Barrier barrier → Answered (tried (sync.Barrier barrier) (table self.old) t next) (table self.old) result (table self.new) }
        ensures capacity { vec_capacity self.new.seats ≡ vec_capacity self.old.seats }
        ensures walks { WalksStand self.new }
    {
        if is_released(&self.seats[t as usize]) {
            return self.issue(t);
        }
        if is_away(&self.seats[t as usize]) {
            return self.come(t, barrier);
        }
        self.pass(t);
        Turn::Pass
    }

    /// Every thread that has not ended has passed.
    pub fn deadlock(&self) -> Turn
        requires walks { WalksStand self.now }
        requires few { length self.now.seats.items ≤ MOST_THREADS }
        ensures { Answered (deadlocked (look (table self.now) (numbers 0 (length (table self.now).seats)))) (table self.now) result (table self.now) }
    {
        let Some(t) = self.first_live(0, self.seats.len()) else {
            return Turn::Ended(End::Finished);
        };
        match &self.seats[t as usize].next {
            Some(next) => stuck(Why::Deadlock, t, next.line),
            None => Turn::Needs(ThreadNo(t)),
        }
    }

    /// The thread that the next turn would issue with a settle.
    pub fn settling(&self) -> Option<u32>
        requires inside { StandsInside self.now }
        ensures { result ≡ Rattle.token_order.specs.Turned.settling_in (Rattle.task_ast.specs.Turn.turn (table self.now)) }
    {
        if self.limit <= self.issued {
            return None;
        }
        let Some(t) = self.token_at() else {
            return None;
        };
        let seat = &self.seats[t as usize];
        let Some(next) = &seat.next else {
            return None;
        };
        if seat.passed {
            return None;
        }
        if next.sync.is_settle() { Some(t) } else { None }
    }

    /// The thread that the token comes to, where its next synchronisation is not known.
    pub fn needs(&self) -> Option<u32>
        requires inside { StandsInside self.now }
        ensures { result ≡ needed_at (table self.now) }
    {
        let Some(t) = self.token_at() else {
            return None;
        };
        if self.seats[t as usize].next.is_none() {
            Some(t)
        } else {
            None
        }
    }

    /// One turn, by its rules.
    pub fn turn(&mut self) -> Turn
        requires inside { StandsInside self.old }
        requires spare { vec_len self.old.seats < vec_capacity self.old.seats }
        ensures answer { Answered (Rattle.task_ast.specs.Turn.turn (table self.old)) (table self.old) result (table self.new) }
        ensures capacity { vec_capacity self.new.seats ≡ vec_capacity self.old.seats }
        ensures walks { WalksStand self.new }
    {
        let Some(t) = self.token_at() else {
            return Turn::Ended(End::Finished);
        };
        let seat = &self.seats[t as usize];
        let last = last_of(seat);
        let Some(next) = &seat.next else {
            return Turn::Needs(ThreadNo(t));
        };
        if seat.passed {
            return self.deadlock();
        }
        let line = next.line;
        match &next.sync {
            SyncOp::Start => self.issue(t),
            SyncOp::Lock(cell) => {
                let cell = cell.0;
                self.lock(t, cell)
            }
            SyncOp::Unlock(_) => self.issue(t),
            SyncOp::Fork { task: _, args: _ } => self.fork(t, line),
            SyncOp::Join(h) => {
                let h = *h;
                self.join(t, h, line)
            }
            SyncOp::Barrier(barrier) => {
                let barrier = *barrier;
                self.meet(t, barrier)
            }
            SyncOp::Settle { reg: _, ctl: _ } => self.issue(t),
            SyncOp::End => self.issue(t),
            SyncOp::BadIndex => stuck(Why::Index, t, line),
            SyncOp::Spent => Turn::Ended(End::Spent(Pos(last))),
        }
    }
}

// The run ends at this thread, at this line.
fn stuck(why: Why, t: u32, line: u32) -> Turn
    ensures { result ≡ here.Ended (ends.Stuck why t line) }
{
    Turn::Ended(End::Stuck {
        why,
        thread: ThreadNo(t),
        line,
    })
}

// The position of the thread's last subthread; 0 where it has none.
fn last_of(seat: &Seat) -> u32
    ensures { result ≡ unwrap_or seat.now.last 0 }
{
    match seat.last {
        Some(position) => position,
        None => 0,
    }
}

// The stated number of a barrier.
fn stated(barriers: &[u32], barrier: u32) -> u32
    ensures { result ≡ unwrap_or (slice_get barriers.now barrier) 0 }
{
    match barriers.get(barrier as usize) {
        Some(number) => *number,
        None => 0,
    }
}

// Whether the thread waits at this barrier.
fn is_waiting(seat: &Seat, barrier: u32) -> bool
    ensures { result ≡ waits_at barrier (seat_of seat.now) }
{
    match seat.stand {
        Stand::Away => return false,
        Stand::Released => return false,
        Stand::Waits => {}
    }
    match &seat.next {
        Some(next) => {
            match &next.sync {
                SyncOp::Barrier(other) => barrier == *other,
                _ => false,
            }
        }
        None => false,
    }
}

// How many threads wait at this barrier.
fn waiting(seats: &[Seat], barrier: u32) -> usize
    requires idle { IdleOver (map onward_of seats.now) (map seat_of seats.now) }
    ensures number { result ≡ count_by (waits_at barrier) (map seat_of seats.now) }
    ensures most { result ≤ length seats.now }
{
    let mut number: usize = 0;
    let mut t = 0;
    while t < seats.len() {
        let seat = &seats[t];
        if is_waiting(seat, barrier) {
            number += 1;
        }
        t = (t + 1).max(seat.onward);
    }
    number
}

// The threads that wait at this barrier are released.
fn release(seats: &mut [Seat], barrier: u32)
    requires idle { IdleOver (map onward_of seats.old) (map seat_of seats.old) }
    ensures seats { map seat_of seats.new ≡ map (released_at barrier) (map seat_of seats.old) }
    ensures onward { map onward_of seats.new ≡ map onward_of seats.old }
{
    let mut t = 0;
    while t < seats.len() {
        let onward = seats[t].onward;
        if is_waiting(&seats[t], barrier) {
            seats[t].stand = Stand::Released;
        }
        t = (t + 1).max(onward);
    }
}

/// Whether the thread has not arrived.
pub fn is_away(seat: &Seat) -> bool
    ensures { result ≡ Rattle.task_ast.specs.meaning.Turn.is_away (seat_of seat.now).stand }
{
    matches!(seat.stand, Stand::Away)
}

// Whether the thread was released.
fn is_released(seat: &Seat) -> bool
    ensures { result ≡ is_free_to_go (seat_of seat.now).stand }
{
    matches!(seat.stand, Stand::Released)
}
