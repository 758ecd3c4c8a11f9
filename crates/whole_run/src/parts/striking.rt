// Which position a fault strikes, and with which mask.

ghost use Rattle.std.specs.Prelude.{◌≡◌, ◌+◌, ◌<◌, ◌≤◌, ℕ, Bool, All, [], false, length, MatchOption};
ghost use Rattle.std.specs.List.{AllWithin};
ghost use Rattle.std.specs.List.Sorted.{IsNonDecreasingBy};
ghost use Rattle.gp_base.specs.Faults.{IsInRange};
ghost use Rattle.dependence.specs.Restarts.{mask_of};
ghost use Rattle.dependence.specs.meaning.Restarts.{least_struck};
ghost use Rattle.reorder_list.specs.Entries.{IsInRow, first_position};
ghost use Rattle.whole_run.specs.inner.Striking.{key_of, rank, strikes, struck_in, IsLeastOf};

use gp_base::{Fault, Faults, Pos, Seq};
use reorder_list::Rol;
use std::marker::Model;
use std::snapshot::Snapshot;

/// The faults of a run, by position and then by attempt. Contracts see them as they were given.
#[derive(Drop)]
pub struct FaultsInOrder {
    given: Snapshot<Faults>,
    list: Seq<Fault>,
}

impl Model for FaultsInOrder {
    ghost use Rattle.std.specs.Coded.{codes};
    ghost use Rattle.gp_base.specs.declared.fault.Faults.{Faults};
    ghost use Rattle.gp_base.specs.contracts.fault.Faults as row;
    ghost use Rattle.whole_run.specs.inner.Striking.{AreInOrder};

    ghost Value = { Faults };

    ghost coded = { Prim.hlevel (codes, row.the_row.coded) };

    ghost view = { λ f. f.given.value };

    ghost invariant = { λ f. AreInOrder f.given.value.list f.list };
}

// A number for a position and an attempt, by which faults stand in order.
fn key_of(pos: u32, attempt: u32) -> u64
    ensures { result ≡ key_of pos attempt }
{
    pos as u64 * 4294967296 + attempt as u64
}

// The number of a fault.
fn rank(fault: &Fault) -> u64
    ensures { result ≡ rank fault.now }
{
    key_of(fault.pos, fault.attempt)
}

// The place of the first fault that is not before a position and an attempt, or how many there are.
fn place_from(faults: &[Fault], pos: u32, attempt: u32) -> usize
    requires { IsNonDecreasingBy rank faults.now }
    ensures within { result ≤ length faults.now }
    ensures before { AllWithin (λ fault. rank fault < key_of pos attempt) faults.now 0 result }
    ensures from { AllWithin (λ fault. key_of pos attempt ≤ rank fault) faults.now result (length faults.now) }
{
    let key = key_of(pos, attempt);
    faults.partition_point(|fault| rank(fault) < key)
}

// Whether a fault names the present attempt of its position, and is due at this front or need not be.
fn strikes(rol: &Rol, fault: &Fault, front: u32, any: bool) -> bool
    ensures { result ≡ strikes any rol.now.entries front fault.now }
{
    match rol.get(Pos(fault.pos)) {
        Some(entry) => {
            fault.attempt == entry.attempt
                && (any || entry.begun as u64 + fault.delay as u64 <= front as u64)
        }
        None => false,
    }
}

// The position of the oldest entry, where there is one.
fn oldest(rol: &Rol) -> Option<Pos>
    ensures { MatchOption result (rol.now.entries ≡ []) (λ p. p ≡ first_position rol.now.entries) }
{
    match rol.front() {
        Some(entry) => Some(entry.pos),
        None => None,
    }
}

// The place of the next fault after that at a place which may strike. Those between name other attempts of its position
// than the present one.
fn next_place(rol: &Rol, faults: &[Fault], at: usize) -> usize
    requires rises { IsNonDecreasingBy rank faults.now }
    requires in_range { All IsInRange faults.now }
    requires within { at < length faults.now }
    ensures later { at < result }
    ensures within { result ≤ length faults.now }
    ensures passed { (any : Bool) (front : ℕ) → AllWithin (λ fault. strikes any rol.now.entries front fault ≡ false) faults.now (at + 1) result }
{
    let fault = &faults[at];
    let Some(entry) = rol.get(Pos(fault.pos)) else {
        return at + 1;
    };
    if fault.attempt < entry.attempt {
        return place_from(faults, fault.pos, entry.attempt).max(at + 1);
    }
    if fault.attempt > entry.attempt {
        return place_from(faults, fault.pos, u32::MAX).max(at + 1);
    }
    at + 1
}

// The position of the first fault from a place on that strikes, where none does before that place. The walk passes over
// faults that name attempts which are not the present ones, and ends past the last entry.
fn first_struck(
    rol: &Rol,
    faults: &[Fault],
    low: usize,
    first: Pos,
    front: u32,
    any: bool,
) -> Option<u32>
    requires row { IsInRow rol.now.entries }
    requires first { first ≡ first_position rol.now.entries }
    requires rises { IsNonDecreasingBy rank faults.now }
    requires in_range { All IsInRange faults.now }
    requires within { low ≤ length faults.now }
    requires before { AllWithin (λ fault. strikes any rol.now.entries front fault ≡ false) faults.now 0 low }
    ensures { IsLeastOf (strikes any rol.now.entries front) faults.now result }
{
    let mut at = low;
    'striking: while at < faults.len() {
        let fault = &faults[at];
        if fault.pos.saturating_sub(first.0) as usize >= rol.len() {
            return None;
        }
        if strikes(rol, fault, front, any) {
            return Some(fault.pos);
        }
        at = next_place(rol, faults, at);
    }
    None
}

impl FaultsInOrder {
    /// These faults. Takes no memory.
    pub fn new(faults: Faults) -> FaultsInOrder
        ensures { result ≡ faults }
    {
        let given = Snapshot::of(&faults);
        let mut list = faults.list.into_vec();
        list.sort_unstable_by_key(|fault| rank(fault));
        FaultsInOrder {
            given,
            list: Seq::from_vec(list),
        }
    }

    /// How many there are.
    pub fn len(&self) -> usize
        ensures { result ≡ length self.now.list }
    {
        self.list.len()
    }

    /// The mask of the fault that strikes an attempt, or 0.
    pub fn mask_of(&self, pos: Pos, attempt: u32) -> i64
        ensures { result ≡ mask_of self.now.list pos attempt }
    {
        let place = place_from(self.list.as_slice(), pos.0, attempt);
        match self.list.get(place) {
            Some(fault) if fault.pos == pos.0 && fault.attempt == attempt => fault.mask,
            _ => 0,
        }
    }

    /// The least position that is struck at this front by a fault that is due, or by any. Looks only at the faults on
    /// positions that are in the list.
    pub fn least_struck(&self, rol: &Rol, front: u32, any: bool) -> Option<u32>
        requires { IsInRow rol.now.entries }
        ensures { result ≡ least_struck (strikes any rol.now.entries front) self.now.list }
    {
        if self.len() == 0 {
            return None;
        }
        let Some(first) = oldest(rol) else {
            return None;
        };
        let faults = self.list.as_slice();
        let low = place_from(faults, first.0, 0);
        first_struck(rol, faults, low, first, front, any)
    }

    /// The position that is struck next, as far as the end is known.
    pub fn struck(&self, rol: &Rol, front: u32, known: bool) -> Option<u32>
        requires { IsInRow rol.now.entries }
        ensures { result ≡ struck_in known rol.now.entries front self.now.list }
    {
        if self.len() == 0 {
            return None;
        }
        if let Some(position) = self.least_struck(rol, front, false) {
            return Some(position);
        }
        if known {
            self.least_struck(rol, front, true)
        } else {
            None
        }
    }
}
