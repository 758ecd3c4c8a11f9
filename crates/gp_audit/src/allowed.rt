// Which line of a trace may come next.
ghost use Rattle.std.specs.Prelude.{◌≡◌, ◌↔◌, ◌<◌, ◌≤◌, length, min, IsTrue, slice_get, All, Some};
ghost use Rattle.std.specs.Option.{option_map_or};
ghost use Rattle.std.specs.List.{list_any};
ghost use Rattle.dependence.specs.meaning.Dependents.{dependents};
ghost use Rattle.dependence.specs.meaning.Conflict.{clash_in};
ghost use Rattle.gp_audit.specs.Steps.{feet_in, before_step};
ghost use Rattle.gp_audit.specs.inner.Audited.{strikes, least_of, is_last, settles, drains_now, struck_in, follows, issues, is_held_up, posts, takes, retires, Takes, IsRestart, is_whole, kept};

use crate::line::TraceLine;
use crate::state::Audit;
use dependence::conflict;
use gp_base::limits::LONGEST_DELAY;
use gp_base::{Fault, Pos, Restart};
use task_ast::SyncOp;

// The lesser of a position and of another, where there is one.
fn lesser_of(position: u32, other: Option<u32>) -> u32
    ensures { result ≡ option_map_or (min position) other position }
{
    match other {
        None => position,
        Some(other) => position.min(other),
    }
}

// Whether a position stands at a place of a list.
fn stands_at(redo: &[Pos], place: usize, position: usize) -> bool
    ensures { IsTrue result ↔ (slice_get redo.now place ≡ Some position) }
{
    match redo.get(place) {
        Some(other) => other.0 as usize == position,
        None => false,
    }
}

impl Audit<'_> {
    // Whether a fault names the present attempt of its position, and is due at this front or need not be.
    fn strikes(&self, fault: &Fault, any: bool) -> bool
        ensures { result ≡ strikes any (kept self.now).seen fault.now }
    {
        match self.seen.get(fault.pos as usize) {
            Some(seen) => {
                fault.attempt as u64 == seen.attempt
                    && (any || seen.begun as u64 + fault.delay as u64 <= self.seen.len() as u64)
            }
            None => false,
        }
    }

    // The least position that is struck by a fault that is due, or by any.
    fn least_struck(&self, any: bool) -> Option<u32>
        ensures { result ≡ least_of (kept self.now) any }
    {
        let mut least = None;
        for fault in self.faults {
            if self.strikes(fault, any) {
                least = Some(lesser_of(fault.pos, least));
            }
        }
        least
    }

    // Whether all positions were issued.
    pub fn is_last(&self) -> bool
        ensures { result ≡ is_last (kept self.now) }
    {
        self.seen.len() == self.steps.len()
    }

    // Whether the position begins with a settle.
    fn settles(&self, position: usize) -> bool
        ensures { result ≡ settles (kept self.now) position }
    {
        match self.steps.get(position) {
            Some(step) => matches!(step.begins.sync, SyncOp::Settle { reg: _, ctl: _ }),
            None => false,
        }
    }

    // Whether the front drains: all positions were issued, or a settle comes next.
    fn drains(&self) -> bool
        ensures { result ≡ drains_now (kept self.now) }
    {
        self.is_last() || self.settles(self.seen.len())
    }

    // The position that is struck next.
    pub fn struck_next(&self) -> Option<u32>
        ensures { result ≡ struck_in (kept self.now) }
    {
        if let Some(position) = self.least_struck(false) {
            return Some(position);
        }
        if self.drains() {
            self.least_struck(true)
        } else {
            None
        }
    }

    // The last position below this one of the same thread.
    fn before(&self, position: usize) -> Option<usize>
        requires { position < length (kept self.now).steps }
        ensures { result ≡ before_step (kept self.now).steps position (slice_get (kept self.now).steps position) }
    {
        let thread = self.steps[position].thread;
        let mut below = position;
        while below > 0 {
            below -= 1;
            if self.steps[below].thread == thread {
                return Some(below);
            }
        }
        None
    }

    // Whether an attempt of the position was taken, if there is one.
    fn follows(&self, before: Option<usize>) -> bool
        ensures { result ≡ follows (kept self.now) before }
    {
        match before {
            None => true,
            Some(position) => match self.seen.get(position) {
                Some(seen) => seen.taken,
                None => false,
            },
        }
    }

    fn issues(&self, position: Pos) -> bool
        ensures { result ≡ issues (kept self.now) position }
    {
        let position = position.0 as usize;
        if position != self.seen.len() || position >= self.steps.len() {
            return false;
        }
        self.least_struck(false).is_none()
            && self.follows(self.before(position))
            && (!self.settles(position) || self.retired == position)
    }

    // Whether two positions are in conflict.
    fn clashes(&self, earlier: usize, later: usize) -> bool
        requires earlier { earlier < length (kept self.now).steps }
        requires later { later < length (kept self.now).steps }
        ensures { result ≡ clash_in (feet_in (kept self.now).steps) earlier later }
    {
        conflict(&self.steps[earlier].foot, &self.steps[later].foot)
    }

    // Whether an earlier position that is not applied is in conflict with this one.
    fn is_held_up(&self, position: usize) -> bool
        requires { position < length (kept self.now).steps }
        ensures { result ≡ is_held_up (kept self.now) position }
    {
        for earlier in self.waiting.as_slice() {
            let earlier = *earlier as usize;
            if earlier < position && self.clashes(earlier, position) {
                return true;
            }
        }
        false
    }

    fn posts(&self, position: Pos, attempt: u32) -> bool
        requires { length (kept self.now).seen ≤ length (kept self.now).steps }
        ensures { result ≡ posts (kept self.now) position attempt }
    {
        let position = position.0 as usize;
        if position >= self.seen.len() || position < self.retired {
            return false;
        }
        let seen = self.seen[position];
        seen.attempt == attempt as u64 && !seen.posted && !self.is_held_up(position)
    }

    fn takes(&self, position: Pos, attempt: u32, applies: bool) -> bool
        ensures { result ≡ takes (kept self.now) position attempt applies }
    {
        if !self.out.as_slice().contains(&(position.0, attempt)) {
            return false;
        }
        let present = match self.seen.get(position.0 as usize) {
            Some(seen) => seen.attempt,
            None => 0,
        };
        applies == (attempt as u64 == present)
    }

    fn retires(&self, position: Pos) -> bool
        ensures { result ≡ retires (kept self.now) position }
    {
        let position = position.0 as usize;
        if position != self.retired || position >= self.seen.len() {
            return false;
        }
        let seen = self.seen[position];
        if !seen.applied || self.least_struck(false).is_some() {
            return false;
        }
        if seen.begun as u64 + LONGEST_DELAY as u64 <= self.seen.len() as u64 {
            return true;
        }
        self.drains() && self.least_struck(true).is_none()
    }

    // Whether one of these positions is in conflict with a later one.
    pub fn is_reached(&self, redo: &[Pos], later: usize) -> bool
        requires later { later < length (kept self.now).steps }
        requires redo { All (λ p. p < length (kept self.now).steps) redo.now }
        ensures { result ≡ list_any (λ p. clash_in (feet_in (kept self.now).steps) p later) redo.now }
    {
        for earlier in redo {
            if self.clashes(earlier.0 as usize, later) {
                return true;
            }
        }
        false
    }

    // Whether these are the dependents of a position below the front.
    fn are_dependents(&self, struck: usize, redo: &[Pos]) -> bool
        requires struck { struck < length (kept self.now).seen }
        requires within { length (kept self.now).seen ≤ length (kept self.now).steps }
        ensures { IsTrue result ↔ (redo.now ≡ dependents (clash_in (feet_in (kept self.now).steps)) struck (length (kept self.now).seen)) }
    {
        let mut found = 0;
        for later in struck..self.seen.len() {
            if later == struck || self.is_reached(&redo[..found], later) {
                if !stands_at(redo, found, later) {
                    return false;
                }
                found += 1;
            }
        }
        found == redo.len()
    }

    // Whether this is the restart that comes next.
    fn restarts(&self, restart: &Restart) -> bool
        requires { length (kept self.now).seen ≤ length (kept self.now).steps }
        ensures { IsTrue result ↔ IsRestart (kept self.now) restart.now (struck_in (kept self.now)) }
    {
        let Some(struck) = self.struck_next() else {
            return false;
        };
        let at = struck as usize;
        if at >= self.seen.len() {
            return false;
        }
        restart.front.0 as usize == self.seen.len()
            && restart.struck.0 == struck
            && restart.attempt as u64 == self.seen[at].attempt
            && self.are_dependents(at, restart.redo.as_slice())
    }

    /// Whether the line may come next.
    pub fn may_come(&self, line: &TraceLine) -> bool
        requires { length (kept self.now).seen ≤ length (kept self.now).steps }
        ensures { IsTrue result ↔ Takes (kept self.now) line.now }
    {
        match line {
            TraceLine::Issue(position) => self.issues(*position),
            TraceLine::Post(position, attempt) => self.posts(*position, *attempt),
            TraceLine::Take(position, attempt, applies) => {
                self.takes(*position, *attempt, *applies)
            }
            TraceLine::Restart(restart) => self.restarts(restart),
            TraceLine::Retire(position) => self.retires(*position),
        }
    }

    /// Whether the run has ended.
    pub fn is_whole(&self) -> bool
        ensures { result ≡ is_whole (kept self.now) }
    {
        self.is_last() && self.struck_next().is_none() && self.retired == self.steps.len()
    }
}
