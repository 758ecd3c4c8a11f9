// Threads that wait at barriers, of which many pass in one step.

ghost use Rattle.std.specs.Prelude.{◌≡◌, ℕ, ◌<◌, ◌≤◌, ◌⊎◌, true, false, List, [], length, vec_len, vec_capacity, IfSome, IfOk, Some, None, slice_get};
ghost use Rattle.std.specs.Option.{option_map};
ghost use Rattle.task_ast.specs.laws.Threads.{ahead};
ghost use Rattle.task_ast.specs.Table.{Seat as SeatThere, learning};
ghost use Rattle.task_ast.specs.Turn.{has_passed, look, turn};
ghost use Rattle.task_ast.specs.meaning.Table.{ring};
ghost use Rattle.token_order.specs.Spans.{covers, is_barrier, is_stopped, no_span, shown, StoppedOver, WaysStand, Reaches, Passes, arrives_at, span_after, opens, ComesTo, comes_round, past_of};
ghost use Rattle.token_order.specs.Turned.{Answered};
ghost use Rattle.token_order.specs.View.{table, seat_of, StandsInside, WalksStand};

use crate::rules::{Turn, is_away};
use crate::threads::{Seat, Stand, Threads};
use std::alloc::{AllocError, Global};
use task_ast::{Next, SyncOp};

/// The threads that have passed in one step, as far as they wait: those from the first up to the place `past`, and those
/// below the place `low`.
#[derive(Drop, Clone, Copy)]
pub struct Span {
    pub first: usize,
    pub past: usize,
    pub low: usize,
}

/// Each thread from one on up to the place `to` is stopped: it has ended, or waits at the barrier where it stands. Where
/// the place `past` is beyond the first, the last thread before it waits.
#[derive(Drop, Clone, Copy)]
pub struct Way {
    pub to: usize,
    pub past: usize,
}

/// The threads that have passed in one step, and beside each thread how far those from it on are stopped, so that a walk
/// goes over them in one step.
#[derive(Drop)]
pub struct Spans {
    pub span: Span,
    pub ways: Vec<Way>,
}

impl Span {
    /// No thread.
    pub fn none() -> Span
        ensures { result ≡ no_span }
    {
        Span {
            first: 0,
            past: 0,
            low: 0,
        }
    }

    /// Whether the thread is one of these.
    pub fn covers(self, t: usize) -> bool
        ensures { result ≡ covers self t }
    {
        (self.first <= t && t < self.past) || t < self.low
    }

    // Whether no thread is one of these.
    fn is_empty(self) -> bool
        ensures { result ≡ true → (t : ℕ) → covers self t ≡ false }
    {
        self.past <= self.first && self.low == 0
    }

    // These and those of a stretch, where none is one of them already, and two numbers and a third can tell them.
    fn with(self, from: usize, past: usize) -> Option<Span>
        ensures { IfSome result (Reaches self from past) }
    {
        if from == 0 && self.low == 0 && (self.past <= self.first || past <= self.first) {
            return Some(Span {
                first: self.first,
                past: self.past,
                low: past,
            });
        }
        if self.past <= self.first && self.low <= from {
            return Some(Span {
                first: from,
                past,
                low: self.low,
            });
        }
        None
    }
}

impl Spans {
    /// No thread has passed in one step, and there are no ways. The error is that memory is out.
    pub fn new(alloc: Global) -> Result<Spans, AllocError>
        ensures span { IfOk result (λ spans. spans.span ≡ no_span) }
        ensures ways { IfOk result (λ spans. spans.ways.items ≡ []) }
    {
        Ok(Spans {
            span: Span::none(),
            ways: Vec::new(alloc),
        })
    }

    /// A way for one more thread than so many, where there is none. The error is that memory is out.
    pub fn reserve(&mut self, threads: usize) -> Result<(), AllocError>
        ensures span { self.new.span ≡ self.old.span }
        ensures ways { (seats : List SeatThere) → WaysStand self.old.ways.items seats → WaysStand self.new.ways.items seats }
    {
        if self.ways.len() <= threads {
            self.ways.push(Way { to: 0, past: 0 })?;
        }
        Ok(())
    }

    /// No walk goes over this thread any more.
    pub fn uncover(&mut self, threads: &Threads, t: u32)
        requires exists { t < length threads.now.seats.items }
        requires ways { WaysStand self.old.ways.items (table threads.now).seats }
        ensures span { self.new.span ≡ self.old.span }
        ensures ways { WaysStand self.new.ways.items (table threads.now).seats }
        ensures uncovered { (next : Next) → WaysStand self.new.ways.items (learning (table threads.now) t next).seats }
    {
        if is_stopped(&threads.seats[t as usize]) {
            forget(&mut self.ways);
        }
    }
}

// Whether a thread that stands so has arrived at a barrier and isn't released.
fn is_waiting(seat: &Seat) -> bool
    ensures { result ≡ Rattle.task_ast.specs.meaning.Table.is_waiting (seat_of seat.now).stand }
{
    matches!(seat.stand, Stand::Waits)
}

// Whether this is a barrier.
fn is_barrier(sync: &SyncOp) -> bool
    ensures { result ≡ is_barrier sync.now }
{
    matches!(sync, SyncOp::Barrier(_))
}

// Whether the thread has ended, or waits at the barrier where it stands.
fn is_stopped(seat: &Seat) -> bool
    ensures { result ≡ is_stopped (seat_of seat.now) }
{
    match &seat.next {
        Some(next) => {
            if is_waiting(seat) {
                is_barrier(&next.sync)
            } else {
                next.sync.is_end()
            }
        }
        None => false,
    }
}

impl Threads {
    /// Whether the thread has passed, one by one or in the span.
    pub fn has_passed(&self, span: Span, t: u32) -> bool
        requires exists { t < length self.now.seats.items }
        ensures { result ≡ has_passed (shown span (table self.now)) t }
    {
        let seat = &self.seats[t as usize];
        seat.passed || (is_waiting(seat) && span.covers(t as usize))
    }

    /// The thread that the next turn would issue with a settle, where those in the span that wait have passed too.
    pub fn settling_in(&self, span: Span) -> Option<u32>
        requires inside { StandsInside self.now }
        ensures { result ≡ Rattle.token_order.specs.Turned.settling_in (turn (shown span (table self.now))) }
    {
        if self.comes_round(span) {
            return None;
        }
        self.settling()
    }

    /// The thread whose rules the next turn tries, where those in the span that wait have passed too.
    pub fn ahead_in(&self, span: Span) -> Option<u32>
        requires inside { StandsInside self.now }
        ensures { result ≡ option_map (λ tried. tried.0) (ahead (shown span (table self.now))) }
    {
        let Some(t) = self.token_at() else {
            return None;
        };
        if self.seats[t as usize].next.is_none() {
            return None;
        }
        if self.has_passed(span, t) {
            None
        } else {
            Some(t)
        }
    }

    /// Whether the thread that the token comes to has passed in the span.
    pub fn comes_round(&self, span: Span) -> bool
        requires inside { StandsInside self.now }
        ensures { result ≡ comes_round span (table self.now) }
    {
        if span.is_empty() {
            return false;
        }
        let Some(t) = self.token_at() else {
            return false;
        };
        let seat = &self.seats[t as usize];
        seat.next.is_some() && is_waiting(seat) && span.covers(t as usize)
    }

    // Whether the thread that the token comes to comes to a barrier.
    fn arrives(&self) -> bool
        requires inside { StandsInside self.now }
        ensures { result ≡ arrives_at (look (table self.now) (ring (table self.now).token (length (table self.now).seats))) (table self.now) }
    {
        let Some(t) = self.token_at() else {
            return false;
        };
        let seat = &self.seats[t as usize];
        match &seat.next {
            Some(next) => is_away(seat) && is_barrier(&next.sync),
            None => false,
        }
    }

    // How far the threads from one on are stopped, by a walk that goes over each way in one step.
    fn way_from(&self, ways: &[Way], from: usize) -> Way
        requires ways { WaysStand ways.now (table self.now).seats }
        ensures stopped { StoppedOver from result (table self.now).seats }
    {
        let mut past = from;
        let mut t = from;
        while t < self.seats.len() {
            let seat = &self.seats[t];
            if !is_stopped(seat) {
                return Way { to: t, past };
            }
            let way = way_at(ways, t);
            past = past_of(past, t, is_waiting(seat), way);
            t = (t + 1).max(way.to);
        }
        Way { to: t, past }
    }

    // The threads from one on that are stopped pass in one step, up to the last of them that waits, where none of them has
    // passed.
    fn pass_from(&mut self, spans: &mut Spans, from: usize, to: usize)
        requires inside { StandsInside self.old }
        requires ways { WaysStand spans.old.ways.items (table self.old).seats }
        requires comes { ComesTo (table self.old) from to }
        ensures passes { Passes (shown spans.old.span (table self.old)) (shown spans.new.span (table self.new)) }
        ensures capacity { vec_capacity self.new.seats ≡ vec_capacity self.old.seats }
        ensures inside { StandsInside self.new }
        ensures ways { WaysStand spans.new.ways.items (table self.new).seats }
    {
        let way = self.way_from(&spans.ways, from);
        keep(&mut spans.ways, from, way);
        if way.past <= from {
            return;
        }
        if to < way.past {
            return;
        }
        if self.passed.meets(from, way.past) {
            return;
        }
        let Some(span) = spans.span.with(from, way.past) else {
            return;
        };
        spans.span = span;
        self.token = Some((way.past - 1) as u32);
    }

    /// The threads to which the token comes next pass, as far as they wait at barriers.
    pub fn pass_waiting(&mut self, spans: &mut Spans)
        requires inside { StandsInside self.old }
        requires ways { WaysStand spans.old.ways.items (table self.old).seats }
        ensures passes { Passes (shown spans.old.span (table self.old)) (shown spans.new.span (table self.new)) }
        ensures capacity { vec_capacity self.new.seats ≡ vec_capacity self.old.seats }
        ensures inside { StandsInside self.new }
        ensures ways { WaysStand spans.new.ways.items (table self.new).seats }
    {
        if self.waits == 0 {
            return;
        }
        let start = self.start();
        let all = self.seats.len();
        self.pass_from(spans, start, all);
        let start = self.start();
        if self.first_live(start, self.seats.len()).is_none() {
            self.pass_from(spans, 0, start);
        }
    }

    /// One turn, where those in the span that wait have passed too.
    pub fn turn_in(&mut self, spans: &mut Spans) -> Turn
        requires inside { StandsInside self.old }
        requires ways { WaysStand spans.old.ways.items (table self.old).seats }
        requires spare { vec_len self.old.seats < vec_capacity self.old.seats }
        ensures answer { Answered (turn (shown spans.old.span (table self.old))) (shown spans.old.span (table self.old)) result (shown spans.new.span (table self.new)) }
        ensures capacity { vec_capacity self.new.seats ≡ vec_capacity self.old.seats }
        ensures inside { StandsInside self.new }
        ensures ways { WaysStand spans.new.ways.items (table self.new).seats }
    {
        if self.comes_round(spans.span) {
            return self.deadlock();
        }
        let arrives = self.arrives();
        let turn = self.turn();
        spans.span = span_after(&turn, arrives, spans.span);
        if opens(&turn, arrives) {
            forget(&mut spans.ways);
        }
        turn
    }
}

// The way of a thread; none where there is none.
fn way_at(ways: &[Way], t: usize) -> Way
    ensures { (seats : List SeatThere) → WaysStand ways.now seats → StoppedOver t result seats }
{
    match ways.get(t) {
        Some(way) => *way,
        None => Way { to: t, past: t },
    }
}

// Where the last thread that waits stands that a walk has gone over which comes to a thread.
fn past_of(past: usize, t: usize, waits: bool, way: Way) -> usize
    requires few { t < 18446744073709551615 }
    ensures { result ≡ past_of past t waits way }
{
    if t < way.past {
        return way.past;
    }
    if waits { t + 1 } else { past }
}

// The way of a thread is kept.
fn keep(ways: &mut Vec<Way>, t: usize, way: Way)
    ensures { (seats : List SeatThere) → WaysStand ways.old.items seats → StoppedOver t way seats → WaysStand ways.new.items seats }
{
    if t < ways.len() {
        ways[t] = way;
    }
}

// No walk goes over more than one thread.
fn forget(ways: &mut [Way])
    ensures { (seats : List SeatThere) → WaysStand ways.new seats }
{
    for way in ways.iter_mut() {
        *way = Way { to: 0, past: 0 };
    }
}

// The span after a turn: an issue and an arrival forget all passes.
fn span_after(turn: &Turn, arrives: bool, span: Span) -> Span
    ensures { result ≡ span_after turn.now arrives span }
{
    match turn {
        Turn::Issue { .. } => Span::none(),
        Turn::Pass => { if arrives { Span::none() } else { span } }
        _ => span,
    }
}

// Whether the turn has opened a barrier.
fn opens(turn: &Turn, arrives: bool) -> bool
    ensures { result ≡ opens turn.now arrives }
{
    match turn {
        Turn::Issue { .. } => arrives,
        _ => false,
    }
}
