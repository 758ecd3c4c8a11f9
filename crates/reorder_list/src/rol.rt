// The list of entries from the oldest that has not retired.

ghost use Rattle.std.specs.Prelude.{◌≡◌, ◌↔◌, ◌+◌, ◌<◌, ◌≤◌, ◌^◌, [], ◌∷◌, ◌++◌, IsTrue, OnOk, MatchOption, IfSome, IfNone, None, Some, length, slice_get, is_some};
ghost use Rattle.std.specs.List.{list_any};
ghost use Rattle.std.specs.Option.{IsSome, IsSomeAnd, option_copied};
ghost use Rattle.reorder_list.specs.Entries.{ComesNext, IsFresh, AllKnown, is_applied, is_out_entry, lends, entry_at, with_change_at, out_entry, known_entry, applied_entry, raised_entry, histories_of};
ghost use Rattle.reorder_list.specs.Runnable.{IsRunnable, IsFirstRunnable, NoneRunnable};
ghost use Rattle.reorder_list.specs.declared.entry.Entry.{Entry};
ghost use Rattle.reorder_list.specs.declared.entry.State.TheVariants.{Out, Applied};

use crate::marks::{Marks, Watch, new_watch};
use crate::search::{first_runnable, first_unapplied, is_runnable, place_of};
use crate::touched::Touched;
use crate::{Entry, State};
use gp_base::{Footprint, Lines, Pos, Seq};
use record_store::History;
use std::alloc::{AllocError, Global};
use std::collections::VecDeque;
use std::marker::Model;

/// The entries of the subthreads that have begun and not retired, the oldest first, at positions that follow one
/// another. Contracts see the list, and room for how many more entries there is.
#[derive(Drop)]
pub struct Rol {
    entries: VecDeque<Entry>,
    // for each entry what held it up when it was last looked at, and what it was found to hold up itself
    watches: VecDeque<Watch>,
    marks: Marks,
    // of each location the last position that reads and writes it by locks
    touched: Touched,
    // of how many entries it is not known what the subthread touches
    unknown: usize,
}

impl Model for Rol {
    ghost use Rattle.std.specs.Prelude.{◌-◌, min};
    ghost use Rattle.std.specs.VecDeque.{deque_len, deque_capacity};
    ghost use Rattle.reorder_list.specs.Entries.{Entered};
    ghost use Rattle.reorder_list.specs.Watched.{IsUpheld};

    ghost Value = { Entered };

    ghost view = { λ r. record { entries = r.entries.items; spare = min (deque_capacity r.entries - deque_len r.entries) (deque_capacity r.watches - deque_len r.watches) } };

    ghost invariant = { λ r. IsUpheld r.entries.items r.watches.items r.marks r.touched r.unknown };
}

// The next attempt of an entry begins at this front and waits; the history of the last one is handed out.
fn raise_entry(alloc: Global, entry: &mut Entry, front: Pos) -> Option<History>
    requires { entry.old.attempt < 4294967295 }
    ensures entry { entry.new ≡ raised_entry front entry.old }
    ensures history { result ≡ entry.old.hist }
{
    entry.attempt += 1;
    entry.begun = front.0;
    entry.state = State::Waiting;
    entry.prints = Seq::new(alloc);
    entry.hist.take()
}

// It is known what the subthread of an entry touches. The answer is whether it was known before.
fn know_entry(entry: &mut Entry, foot: Footprint) -> bool
    ensures entry { entry.new ≡ known_entry foot entry.old }
    ensures known { result ≡ is_some entry.old.foot }
{
    entry.foot.replace(foot).is_some()
}

// The attempt of an entry is out.
fn send_entry(entry: &mut Entry)
    ensures { entry.new ≡ out_entry entry.old }
{
    entry.state = State::Out;
}

// Whether an entry's attempt is out and holds a lock.
fn lends(entry: &Entry) -> bool
    ensures { result ≡ lends entry.now }
{
    is_out(entry) && !entry.held.is_empty()
}

// Whether an entry's attempt is out.
fn is_out(entry: &Entry) -> bool
    ensures { result ≡ is_out_entry entry.now }
{
    matches!(entry.state, State::Out)
}

// The result of an entry's attempt is applied.
fn apply_entry(entry: &mut Entry, history: Option<History>, lines: Lines)
    ensures { entry.new ≡ applied_entry history lines entry.old }
{
    entry.state = State::Applied;
    entry.hist = history;
    entry.prints = lines;
}

impl Rol {
    /// No entries. Takes no memory.
    pub fn new(alloc: Global) -> Rol
        ensures { result.entries ≡ [] }
    {
        Rol {
            entries: VecDeque::new(alloc),
            watches: VecDeque::new(alloc),
            marks: Marks {
                fresh: Pos(0),
                low: Pos(0),
                last: Pos(0),
                whole: Pos(0),
            },
            touched: Touched::new(),
            unknown: 0,
        }
    }

    /// How many entries there are.
    pub fn len(&self) -> usize
        ensures { result ≡ length self.now.entries }
    {
        self.entries.len()
    }

    /// Whether an attempt that is out holds a lock, whose record cells are lent to it then. Looks at each entry. Takes
    /// no memory.
    pub fn lent(&self) -> bool
        ensures { result ≡ list_any lends self.now.entries }
    {
        self.entries.iter().any(|entry| lends(entry))
    }

    /// Whether an attempt is out. Looks at each entry. Takes no memory.
    pub fn any_out(&self) -> bool
        ensures { result ≡ list_any is_out_entry self.now.entries }
    {
        self.entries.iter().any(|entry| is_out(entry))
    }

    /// Whether it is known of each entry what its subthread touches. Takes no memory, and looks at no entry.
    pub fn all_known(&self) -> bool
        ensures { IsTrue result ↔ AllKnown self.now.entries }
    {
        self.unknown == 0
    }

    /// Makes room for one more entry. The error is that memory is out.
    pub fn reserve(&mut self) -> Result<(), AllocError>
        ensures entries { self.new.entries ≡ self.old.entries }
        ensures room { OnOk result (0 < self.new.spare) }
        ensures kept { self.old.spare ≤ self.new.spare }
    {
        self.entries.reserve(1)?;
        self.watches.reserve(1)
    }

    /// Puts the entry of the next position, which waits, at the end. Takes no memory, as every call but `reserve`.
    pub fn push_back(&mut self, entry: Entry)
        requires room { 0 < self.old.spare }
        requires next { ComesNext self.old.entries entry.pos }
        requires fresh { IsFresh entry }
        ensures entries { self.new.entries ≡ self.old.entries ++ entry ∷ [] }
        ensures spare { self.old.spare ≤ self.new.spare + 1 }
    {
        self.marks = self.marks.lowered(entry.pos);
        self.unknown += usize::from(entry.foot.is_none());
        let until = Pos(self.touched.last(&entry.locks));
        self.touched.mark(&entry.locks, entry.pos.0);
        self.watches.push_back_reserved(new_watch(until));
        self.entries.push_back_reserved(entry);
    }

    /// The oldest entry, where there is one.
    pub fn front(&self) -> Option<&Entry>
        ensures { option_copied result ≡ slice_get self.now.entries 0 }
    {
        self.entries.front()
    }

    /// The entry of a position, where it is in the list.
    pub fn get(&self, p: Pos) -> Option<&Entry>
        ensures { option_copied result ≡ entry_at self.now.entries p }
    {
        let place = place_of(&self.entries, p)?;
        self.entries.get(place)
    }

    /// Whether the entry of a position waits and each earlier entry in conflict with it by locks is applied.
    pub fn runnable(&self, p: Pos) -> bool
        ensures { IsTrue result ↔ IsRunnable self.now.entries p }
    {
        match place_of(&self.entries, p) {
            Some(place) => is_runnable(
                &self.entries,
                place,
                self.watches[place].until,
                self.marks.whole,
            ),
            None => false,
        }
    }

    /// The first position from one on and before another whose entry is runnable. Looks at none that is held up as it
    /// was when it was last looked at, or few. The list that contracts see stays as it is.
    pub fn next_runnable(&mut self, from: Pos, below: Pos) -> Option<Pos>
        ensures found { IfSome result (λ p. IsFirstRunnable self.old.entries from p) }
        ensures within { IfSome result (λ p. p < below) }
        ensures none { IfNone result (NoneRunnable self.old.entries from below) }
        ensures same { self.new ≡ self.old }
    {
        self.marks.whole = first_unapplied(&self.entries, self.marks.whole);
        first_runnable(
            &self.entries,
            &mut self.watches,
            &mut self.marks,
            from,
            below,
        )
    }

    /// The attempt of a position is out.
    pub fn set_out(&mut self, p: Pos)
        requires { IsRunnable self.old.entries p }
        ensures entries { self.new.entries ≡ with_change_at p out_entry self.old.entries }
        ensures spare { self.new.spare ≡ self.old.spare }
    {
        if let Some(place) = place_of(&self.entries, p) {
            self.marks = self.marks.past(p);
            send_entry(&mut self.entries[place]);
        }
    }

    /// It is known what the subthread of a position touches, from a run of any of its attempts. Nothing else changes.
    pub fn learn_foot(&mut self, p: Pos, foot: Footprint)
        requires { IsSome (entry_at self.old.entries p) }
        ensures entries { self.new.entries ≡ with_change_at p (known_entry foot) self.old.entries }
        ensures spare { self.new.spare ≡ self.old.spare }
    {
        if let Some(place) = place_of(&self.entries, p) {
            if !know_entry(&mut self.entries[place], foot) {
                self.unknown -= 1;
            }
        }
    }

    /// The result of a position's attempt is applied, with the history that it left, where one is kept, and the lines
    /// that it printed.
    pub fn set_applied(&mut self, p: Pos, history: Option<History>, lines: Lines)
        requires { IsSomeAnd (entry_at self.old.entries p) (λ e. e.state ≡ Out) }
        ensures entries { self.new.entries ≡ with_change_at p (applied_entry history lines) self.old.entries }
        ensures spare { self.new.spare ≡ self.old.spare }
    {
        if let Some(place) = place_of(&self.entries, p) {
            self.marks = self.marks.waking(self.watches[place]);
            apply_entry(&mut self.entries[place], history, lines);
        }
    }

    /// The next attempt of a position begins at this front and waits, and its lines are dropped; it stays known what
    /// the subthread touches. Answers the history, which there is only where the result of the last attempt was
    /// applied, and there if it was kept.
    pub fn raise(&mut self, alloc: Global, p: Pos, front: Pos) -> Option<History>
        requires { IsSomeAnd (entry_at self.old.entries p) (λ e. e.attempt < 4294967295) }
        ensures history { result ≡ histories_of self.old.entries p }
        ensures applied { IfSome (entry_at self.old.entries p) (λ e. IsTrue (is_some result) → IsTrue (is_applied e.state)) }
        ensures entries { self.new.entries ≡ with_change_at p (raised_entry front) self.old.entries }
        ensures spare { self.new.spare ≡ self.old.spare }
    {
        let place = place_of(&self.entries, p)?;
        self.marks = self.marks.lowered(p);
        raise_entry(alloc, &mut self.entries[place], front)
    }

    /// Takes the oldest entry, whose result is applied, out of the list.
    pub fn retire_front(&mut self) -> Entry
        requires { IsSomeAnd (slice_get self.old.entries 0) (λ e. e.state ≡ Applied) }
        ensures entries { self.old.entries ≡ result ∷ self.new.entries }
        ensures spare { self.old.spare ≤ self.new.spare }
    {
        let _ = self.watches.pop_front();
        let Some(entry) = self.entries.pop_front() else {
            unreachable!();
        };
        if entry.foot.is_none() {
            self.unknown -= 1;
        }
        entry
    }
}
