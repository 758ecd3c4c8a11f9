// Which entry is runnable.

ghost use Rattle.std.specs.Prelude.{ℕ, unwrap_or, ◌≡◌, ◌↔◌, ◌⊎◌, ◌+◌, ◌<◌, ◌≤◌, length, IsTrue, IfSome, IfNone, MatchOption, None, false};
ghost use Rattle.std.specs.VecDeque.{deque_len, deque_capacity};
ghost use Rattle.dependence.specs.Conflict.{Conflict};
ghost use Rattle.reorder_list.specs.Entries.{IsInRow, entry_at, first_position, is_applied};
ghost use Rattle.reorder_list.specs.Places.{IsPlaceOf};
ghost use Rattle.reorder_list.specs.Runnable.{LetsPass, IsRunnable, IsFirstRunnable, NoneRunnable};
ghost use Rattle.reorder_list.specs.Watched.{HoldsUp, IsReady, IsHeldUp, IsLooked, AreLooked, AreWider, AllApplied, AreMarks, IsClear, AreClear};

use crate::Entry;
use crate::marks::{Marks, Watch, cover, hold, narrow, refresh};
use dependence::conflict;
use gp_base::Pos;
use std::collections::VecDeque;

/// The place of a position among the entries, where it has one.
pub fn place_of(entries: &VecDeque<Entry>, p: Pos) -> Option<usize>
    requires { IsInRow entries.now.items }
    ensures { MatchOption result (entry_at entries.now.items p ≡ None) (λ place. IsPlaceOf entries.now.items p place) }
{
    let first = entries.front()?.pos;
    if p.0 < first.0 {
        return None;
    }
    let place = (p.0 - first.0) as usize;
    if place < entries.len() {
        Some(place)
    } else {
        None
    }
}

// The place of the first entry from a position on, or how many entries there are.
fn place_from(entries: &VecDeque<Entry>, p: Pos) -> usize
    ensures within { result ≤ length entries.now.items }
    ensures before { (result ≡ 0) ⊎ (first_position entries.now.items + result ≤ p) }
    ensures later { result < length entries.now.items → p ≤ first_position entries.now.items + result }
{
    let first = match entries.front() {
        Some(entry) => entry.pos,
        None => return 0,
    };
    if p.0 < first.0 {
        return 0;
    }
    let place = (p.0 - first.0) as usize;
    place.min(entries.len())
}

// The place after a position, or how many entries there are.
fn place_behind(entries: &VecDeque<Entry>, p: Pos) -> usize
    ensures within { result ≤ length entries.now.items }
    ensures later { result < length entries.now.items → p < first_position entries.now.items + result }
{
    let place = place_from(entries, p);
    if place < entries.len() {
        place + 1
    } else {
        place
    }
}

// Whether an earlier entry is in conflict with the later one by locks and not applied.
fn blocks(earlier: &Entry, later: &Entry) -> bool
    ensures blocks { IsTrue result → Conflict earlier.now.locks later.now.locks × (is_applied earlier.now.state ≡ false) }
    ensures passes { result ≡ false → LetsPass earlier.now later.now }
{
    !earlier.state.is_applied() && conflict(&earlier.locks, &later.locks)
}

// The last position before the one at a place that holds it up, where each entry before `whole` is applied, and none
// after `until` and before the place is in conflict with it.
fn blocker(entries: &VecDeque<Entry>, place: usize, until: Pos, whole: Pos) -> Option<Pos>
    requires in_row { IsInRow entries.now.items }
    requires in_range { place < length entries.now.items }
    requires clear { IsClear entries.now.items until (first_position entries.now.items + place) }
    requires all_applied { AllApplied entries.now.items whole }
    ensures none { IfNone result (IsReady entries.now.items (first_position entries.now.items + place)) }
    ensures some { IfSome result (λ q. HoldsUp entries.now.items q (first_position entries.now.items + place)) }
{
    let entry = &entries[place];
    let end = place_behind(entries, until).min(place);
    for earlier in (place_from(entries, whole)..end).rev() {
        let before = &entries[earlier];
        if blocks(before, entry) {
            return Some(before.pos);
        }
    }
    None
}

/// Whether the entry at a place waits and each earlier one in conflict with it by locks is applied. Looks at no entry
/// before `whole`, before which each is applied, nor at one after `until`, where none is in conflict with it.
pub fn is_runnable(entries: &VecDeque<Entry>, place: usize, until: Pos, whole: Pos) -> bool
    requires in_row { IsInRow entries.now.items }
    requires in_range { place < length entries.now.items }
    requires clear { IsClear entries.now.items until (first_position entries.now.items + place) }
    requires all_applied { AllApplied entries.now.items whole }
    ensures { IsTrue result ↔ IsRunnable entries.now.items (first_position entries.now.items + place) }
{
    entries[place].state.is_waiting() && blocker(entries, place, until, whole).is_none()
}

// The position, if it still holds up the entry at a place.
fn still_holding(entries: &VecDeque<Entry>, by: Option<Pos>, place: usize) -> Option<Pos>
    requires in_row { IsInRow entries.now.items }
    requires in_range { place < length entries.now.items }
    ensures { IfSome result (λ q. HoldsUp entries.now.items q (first_position entries.now.items + place)) }
{
    let earlier = by?;
    let at = place_of(entries, earlier)?;
    if at < place && blocks(&entries[at], &entries[place]) {
        return Some(earlier);
    }
    None
}

// A position that holds up the entry at a place. Looks for another only where the one that last did so does no longer.
fn holder(entries: &VecDeque<Entry>, watch: Watch, place: usize, whole: Pos) -> Option<Pos>
    requires in_row { IsInRow entries.now.items }
    requires in_range { place < length entries.now.items }
    requires clear { IsClear entries.now.items watch.until (first_position entries.now.items + place) }
    requires all_applied { AllApplied entries.now.items whole }
    ensures none { IfNone result (IsReady entries.now.items (first_position entries.now.items + place)) }
    ensures some { IfSome result (λ q. HoldsUp entries.now.items q (first_position entries.now.items + place)) }
{
    match still_holding(entries, watch.by, place) {
        Some(earlier) => Some(earlier),
        None => blocker(entries, place, watch.until, whole),
    }
}

// Notes that a position holds up the entry at a place.
fn note_holder(entries: &VecDeque<Entry>, watches: &mut VecDeque<Watch>, place: usize, earlier: Pos)
    requires in_row { IsInRow entries.now.items }
    requires in_range { place < length entries.now.items }
    requires many { length watches.old.items ≡ length entries.now.items }
    requires holds { HoldsUp entries.now.items earlier (first_position entries.now.items + place) }
    ensures held { IsHeldUp entries.now.items watches.new.items (first_position entries.now.items + place) }
    ensures wider { AreWider watches.old.items watches.new.items }
    ensures len { deque_len watches.new ≡ deque_len watches.old }
    ensures capacity { deque_capacity watches.new ≡ deque_capacity watches.old }
{
    hold(&mut watches[place], Some(earlier));
    let Some(at) = place_of(entries, earlier) else {
        unreachable!();
    };
    cover(&mut watches[at], entries[place].pos);
}

// Whether the entry at a place is runnable. One that waits and is not is in the watch of a position that holds it up.
fn is_ready(
    entries: &VecDeque<Entry>,
    watches: &mut VecDeque<Watch>,
    place: usize,
    whole: Pos,
) -> bool
    requires in_row { IsInRow entries.now.items }
    requires in_range { place < length entries.now.items }
    requires all_applied { AllApplied entries.now.items whole }
    requires many { length watches.old.items ≡ length entries.now.items }
    requires clear { AreClear entries.now.items watches.old.items }
    ensures runnable { IsTrue result ↔ IsRunnable entries.now.items (first_position entries.now.items + place) }
    ensures held { result ≡ false → IsLooked entries.now.items watches.new.items (first_position entries.now.items + place) }
    ensures wider { AreWider watches.old.items watches.new.items }
    ensures len { deque_len watches.new ≡ deque_len watches.old }
    ensures capacity { deque_capacity watches.new ≡ deque_capacity watches.old }
{
    if !entries[place].state.is_waiting() {
        return false;
    }
    match holder(entries, watches[place], place, whole) {
        Some(earlier) => {
            note_holder(entries, watches, place, earlier);
            false
        }
        None => true,
    }
}

/// A position before which each entry is applied, from one that is so on: that of the first entry that is not applied,
/// or of the last.
pub fn first_unapplied(entries: &VecDeque<Entry>, whole: Pos) -> Pos
    requires in_row { IsInRow entries.now.items }
    requires all_applied { AllApplied entries.now.items whole }
    ensures { AllApplied entries.now.items result }
{
    let mut first = whole;
    for place in place_from(entries, whole)..entries.len() {
        first = entries[place].pos;
        if !entries[place].state.is_applied() {
            return first;
        }
    }
    first
}

// The first position at one of these places whose entry is runnable. Those before it that wait are held up.
fn look(
    entries: &VecDeque<Entry>,
    watches: &mut VecDeque<Watch>,
    start: usize,
    end: usize,
    whole: Pos,
) -> Option<Pos>
    requires in_row { IsInRow entries.now.items }
    requires in_range { end ≤ length entries.now.items }
    requires all_applied { AllApplied entries.now.items whole }
    requires many { length watches.old.items ≡ length entries.now.items }
    requires clear { AreClear entries.now.items watches.old.items }
    ensures found { IfSome result (λ p. (first_position entries.now.items + start ≤ p) × (p < first_position entries.now.items + end) × IsRunnable entries.now.items p) }
    ensures looked { AreLooked entries.now.items watches.new.items (first_position entries.now.items + start) (unwrap_or result (first_position entries.now.items + end)) }
    ensures wider { AreWider watches.old.items watches.new.items }
    ensures len { deque_len watches.new ≡ deque_len watches.old }
    ensures capacity { deque_capacity watches.new ≡ deque_capacity watches.old }
{
    for place in start..end {
        if is_ready(entries, watches, place, whole) {
            return Some(entries[place].pos);
        }
    }
    None
}

// The position that was found, or else one before which all entries stand before a place.
fn reached(entries: &VecDeque<Entry>, found: &Option<Pos>, end: usize) -> Pos
    requires in_row { IsInRow entries.now.items }
    requires in_range { end ≤ length entries.now.items }
    ensures { result ≤ unwrap_or found.now (first_position entries.now.items + end) }
{
    if let Some(p) = found {
        return *p;
    }
    if end == 0 {
        return Pos(0);
    }
    entries[end - 1].pos
}

// The first runnable position of those from `low` to `last` that stand before `fresh`, from one position on and before
// another.
fn first_woken(
    entries: &VecDeque<Entry>,
    watches: &mut VecDeque<Watch>,
    marks: &mut Marks,
    from: Pos,
    below: Pos,
) -> Option<Pos>
    requires in_row { IsInRow entries.now.items }
    requires many { length watches.old.items ≡ length entries.now.items }
    requires marks { AreMarks entries.now.items watches.old.items marks.old }
    ensures found { IfSome result (λ p. (from ≤ p) × (p < below) × (p < marks.old.fresh) × IsRunnable entries.now.items p) }
    ensures looked { (q : ℕ) → marks.old.low ≤ q → q ≤ marks.old.last → q < marks.old.fresh → from ≤ q → q < below → IfSome result (λ p. q < p) → IsLooked entries.now.items watches.new.items q }
    ensures wider { AreWider watches.old.items watches.new.items }
    ensures marks { AreMarks entries.now.items watches.new.items marks.new }
    ensures fresh { marks.new.fresh ≡ marks.old.fresh }
    ensures len { deque_len watches.new ≡ deque_len watches.old }
    ensures capacity { deque_capacity watches.new ≡ deque_capacity watches.old }
{
    if marks.last.0 < marks.low.0 {
        return None;
    }
    let follows = from.0 <= marks.low.0;
    let start = place_from(entries, Pos(from.0.max(marks.low.0)));
    let behind = place_behind(entries, marks.last).min(place_from(entries, marks.fresh));
    let end = behind.min(place_from(entries, below));
    let found = look(entries, watches, start, end, marks.whole);
    narrow(marks, follows, &found, end == behind);
    found
}

// The first runnable position of those from `fresh` on, from one position on and before another.
fn first_fresh(
    entries: &VecDeque<Entry>,
    watches: &mut VecDeque<Watch>,
    marks: &mut Marks,
    from: Pos,
    below: Pos,
) -> Option<Pos>
    requires in_row { IsInRow entries.now.items }
    requires many { length watches.old.items ≡ length entries.now.items }
    requires marks { AreMarks entries.now.items watches.old.items marks.old }
    ensures found { IfSome result (λ p. (from ≤ p) × (p < below) × IsRunnable entries.now.items p) }
    ensures looked { (q : ℕ) → marks.old.fresh ≤ q → from ≤ q → q < below → IfSome result (λ p. q < p) → IsLooked entries.now.items watches.new.items q }
    ensures wider { AreWider watches.old.items watches.new.items }
    ensures marks { AreMarks entries.now.items watches.new.items marks.new }
    ensures len { deque_len watches.new ≡ deque_len watches.old }
    ensures capacity { deque_capacity watches.new ≡ deque_capacity watches.old }
{
    let follows = from.0 <= marks.fresh.0;
    let start = place_from(entries, Pos(from.0.max(marks.fresh.0)));
    let end = place_from(entries, below);
    let found = look(entries, watches, start, end, marks.whole);
    refresh(marks, follows, reached(entries, &found, end));
    found
}

/// The first position from one on and before another whose entry is runnable. Those that are looked at and held up need
/// not be looked at again until what holds them up is applied.
pub fn first_runnable(
    entries: &VecDeque<Entry>,
    watches: &mut VecDeque<Watch>,
    marks: &mut Marks,
    from: Pos,
    below: Pos,
) -> Option<Pos>
    requires in_row { IsInRow entries.now.items }
    requires many { length watches.old.items ≡ length entries.now.items }
    requires marks { AreMarks entries.now.items watches.old.items marks.old }
    ensures found { IfSome result (λ p. IsFirstRunnable entries.now.items from p) }
    ensures within { IfSome result (λ p. p < below) }
    ensures none { IfNone result (NoneRunnable entries.now.items from below) }
    ensures many { length watches.new.items ≡ length entries.now.items }
    ensures marks { AreMarks entries.now.items watches.new.items marks.new }
    ensures len { deque_len watches.new ≡ deque_len watches.old }
    ensures capacity { deque_capacity watches.new ≡ deque_capacity watches.old }
{
    match first_woken(entries, watches, marks, from, below) {
        Some(woken) => Some(woken),
        None => first_fresh(entries, watches, marks, from, below),
    }
}
