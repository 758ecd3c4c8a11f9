// The record cells that a run has at hand.
ghost use Rattle.std.specs.Prelude.{◌≡◌, ◌<◌, [], length, map, unwrap_or, All, true, IsTrue, IfOk, IfErr, OnOk, OnErr};
ghost use Rattle.std.specs.Int.{int_bit_xor, w64};
ghost use Rattle.std.specs.FinMap.{put, find, is_sorted};
ghost use Rattle.std.specs.Ordering.{nat_cmp};
ghost use Rattle.record_store.specs.Given.{value_in};
ghost use Rattle.task_ast.specs.meaning.Under.{is_under};
ghost use Rattle.record_store.specs.Lent.{lock_in, put_back, new_write};
ghost use Rattle.subthread.specs.inner.Places.{AreSearchable, AreHandy, HasPlace, with_value, value_at};
ghost use Rattle.subthread.specs.inner.Hand.{with_old, damaged_write, turned_write, written_to};

use crate::numbers::is_zero;
use crate::places::find_cell;
use gp_base::{LockNo, RecNo, Seq};
use record_store::{Bundle, mixed};
use std::alloc::{AllocError, Global};
use std::collections::BTreeMap;
use std::marker::Model;

/// The record cells that a run has at hand, which it changes in place, and the value that each cell came with where it
/// was written. Contracts see the bundles that came, and the cells that were written, each with its last value.
#[derive(Drop)]
pub struct CellsAtHand<'a> {
    under: &'a [Seq<RecNo>],
    over: &'a [LockNo],
    bundles: Vec<Bundle>,
    olds: BTreeMap<u32, i64>,
}

impl<'a> Model for CellsAtHand<'a> {
    ghost use Rattle.record_store.specs.Lent.{put_back, new_write};
    ghost use Rattle.std.specs.Prelude.{map};
    ghost use Rattle.subthread.specs.inner.Hand.{Hand};
    ghost use Rattle.subthread.specs.inner.Places.{AreHandy};

    ghost Value = { Hand };

    ghost view = { λ c. record { under = c.under.now; came = put_back c.under.now c.olds.entries c.bundles.items; written = map (new_write c.under.now c.bundles.items) c.olds.entries } };

    ghost invariant = { λ c. AreHandy c.under.now c.over.now c.bundles.items c.olds.entries };
}

// The value at a place.
fn value_there(bundles: &[Bundle], at: usize, place: usize) -> i64
    requires bundle { at < length bundles.now }
    requires place { HasPlace bundles.now at place }
    ensures { result ≡ value_at bundles.now at place }
{
    match bundles[at].cells.get(place) {
        Some(value) => *value,
        None => 0,
    }
}

/// A cell that was written: its lock, its place under that, the value that it came with, and its last one.
#[derive(Clone, Copy, PartialEq, Eq)]
pub struct Change {
    pub cell: u32,
    pub lock: LockNo,
    pub place: usize,
    pub old: i64,
    pub new: i64,
}

// What the sum of a bundle, or a part of it, adds to the sum of all bundles: an odd multiple, by the lock.
fn share(lock: LockNo, sum: i64) -> i64 {
    let odd = i64::from(lock.0).wrapping_mul(2).wrapping_add(1);
    sum.wrapping_mul(odd)
}

/// A sum over all values of bundles, which tells whether one of them changed; none where the values of a bundle are not
/// those that it was left with.
pub fn sum_of(bundles: &[Bundle]) -> Option<i64> {
    let mut all = 0i64;
    for bundle in bundles {
        let sum = bundle.cells.sum();
        if !bundle.cells.expects(sum) {
            return None;
        }
        all = all.wrapping_add(share(bundle.lock, sum));
    }
    Some(all)
}

/// Turns a bit of the sum of the first bundle, as a fault of the machine would.
pub fn disturb_first(bundles: &mut [Bundle])
    ensures { bundles.new ≡ bundles.old }
{
    if !bundles.is_empty() {
        bundles[0].cells.disturb();
    }
}

// Puts a value into a place.
fn put_there(bundles: &mut [Bundle], at: usize, place: usize, value: i64)
    requires bundle { at < length bundles.old }
    requires place { HasPlace bundles.old at place }
    ensures { bundles.new ≡ with_value at place value bundles.old }
{
    bundles[at].cells.set(place, value);
}

// Keeps the value of a cell, where none is kept.
fn keep_old(olds: &mut BTreeMap<u32, i64>, cell: u32, value: i64) -> Result<(), AllocError>
    ensures ok { OnOk result (olds.new.entries ≡ with_old cell value olds.old.entries) }
    ensures err { OnErr result (olds.new.entries ≡ olds.old.entries) }
{
    if olds.contains_key(&cell) {
        return Ok(());
    }
    olds.insert(cell, value)?;
    Ok(())
}

// Puts the values that were kept back.
fn restore(
    under: &[Seq<RecNo>],
    over: &[LockNo],
    bundles: &mut [Bundle],
    olds: &mut BTreeMap<u32, i64>,
)
    requires { AreHandy under.now over.now bundles.old olds.old.entries }
    ensures { bundles.new ≡ put_back under.now olds.old.entries bundles.old }
{
    'restoring: while let Some(entry) = olds.pop_first() {
        if let Some((at, place)) = find_cell(under, over, bundles, entry.0) {
            put_there(bundles, at, place, entry.1);
        }
    }
}

// The values that were kept, in rising order of their cells.
fn old_values(alloc: Global, olds: &BTreeMap<u32, i64>) -> Result<Vec<(RecNo, i64)>, AllocError>
    ensures { IfOk result (λ values. values.items ≡ olds.now.entries) }
{
    let mut values = Vec::new(alloc);
    if olds.is_empty() {
        return Ok(values);
    }
    'keeping: for (cell, value) in olds {
        values.push((RecNo(*cell), *value))?;
    }
    Ok(values)
}

// The cell at a place, with this old value, as it now is.
fn change_there(bundles: &[Bundle], at: usize, place: usize, cell: u32, old: i64) -> Change
    requires bundle { at < length bundles.now }
    requires place { HasPlace bundles.now at place }
    ensures { written_to result ≡ (cell, value_at bundles.now at place) }
{
    Change {
        cell,
        lock: bundles[at].lock,
        place,
        old,
        new: value_there(bundles, at, place),
    }
}

// The cells with these old values, in their order, as they now are.
fn changes_of(
    alloc: Global,
    under: &[Seq<RecNo>],
    over: &[LockNo],
    bundles: &[Bundle],
    olds: &[(RecNo, i64)],
) -> Result<Vec<Change>, AllocError>
    requires { AreHandy under.now over.now bundles.now olds.now }
    ensures { IfOk result (λ changes. map written_to changes.items ≡ map (new_write under.now bundles.now) olds.now) }
{
    let mut changes = Vec::new(alloc);
    'noting: for at in 0..olds.len() {
        let cell = olds[at].0;
        let Some((bundle, place)) = find_cell(under, over, bundles, cell.0) else {
            unreachable!()
        };
        changes.push(change_there(bundles, bundle, place, cell.0, olds[at].1))?;
    }
    Ok(changes)
}

// The value with the bits of a mask turned round.
fn turn_there(bundles: &mut [Bundle], at: usize, place: usize, mask: i64)
    requires bundle { at < length bundles.old }
    requires place { HasPlace bundles.old at place }
    ensures { bundles.new ≡ with_value at place (int_bit_xor w64 (value_at bundles.old at place) mask) bundles.old }
{
    let value = value_there(bundles, at, place);
    put_there(bundles, at, place, value ^ mask);
}

// The mask falls on each of these cells.
fn strike(
    under: &[Seq<RecNo>],
    over: &[LockNo],
    bundles: &mut [Bundle],
    olds: &[(RecNo, i64)],
    mask: i64,
)
    requires { AreHandy under.now over.now bundles.old olds.now }
    ensures came { put_back under.now olds.now bundles.new ≡ put_back under.now olds.now bundles.old }
    ensures written { map (new_write under.now bundles.new) olds.now ≡ map (turned_write mask) (map (new_write under.now bundles.old) olds.now) }
{
    'striking: for at in 0..olds.len() {
        let cell = olds[at].0;
        let Some((bundle, place)) = find_cell(under, over, bundles, cell.0) else {
            unreachable!()
        };
        turn_there(bundles, bundle, place, mask);
    }
}

// A mask falls on each of these cells; mask 0 changes nothing.
fn damage(
    under: &[Seq<RecNo>],
    over: &[LockNo],
    bundles: &mut [Bundle],
    olds: &[(RecNo, i64)],
    mask: i64,
)
    requires { AreHandy under.now over.now bundles.old olds.now }
    ensures came { put_back under.now olds.now bundles.new ≡ put_back under.now olds.now bundles.old }
    ensures written { map (new_write under.now bundles.new) olds.now ≡ map (damaged_write mask) (map (new_write under.now bundles.old) olds.now) }
{
    if !is_zero(mask) {
        strike(under, over, bundles, olds, mask);
    }
}

impl<'a> CellsAtHand<'a> {
    /// The cells of these bundles, of which none was written.
    pub fn new(
        alloc: Global,
        under: &'a [Seq<RecNo>],
        over: &'a [LockNo],
        bundles: Seq<Bundle>,
    ) -> CellsAtHand<'a>
        requires { AreSearchable under.now over.now bundles }
        ensures { result ≡ record { under = under.now; came = bundles; written = [] } }
    {
        CellsAtHand {
            under,
            over,
            bundles: bundles.into_vec(),
            olds: BTreeMap::new(alloc),
        }
    }

    /// The value of a cell at hand: that which was written last, or else that which came.
    pub fn value(&self, cell: u32) -> i64
        requires { is_under self.now.under (map lock_in self.now.came) cell ≡ true }
        ensures { result ≡ unwrap_or (find nat_cmp cell self.now.written) (value_in self.now.under self.now.came cell) }
    {
        match find_cell(self.under, self.over, &self.bundles, cell) {
            Some((at, place)) => value_there(&self.bundles, at, place),
            None => unreachable!(),
        }
    }

    /// Whether a cell is at hand.
    pub fn has(&self, cell: u32) -> bool
        ensures { IsTrue result → is_under self.now.under (map lock_in self.now.came) cell ≡ true }
    {
        find_cell(self.under, self.over, &self.bundles, cell).is_some()
    }

    /// Writes a cell at hand in place. The error is that memory is out; nothing is written then.
    pub fn write(&mut self, cell: u32, value: i64) -> Result<(), AllocError>
        requires { is_under self.old.under (map lock_in self.old.came) cell ≡ true }
        ensures ok { OnOk result (self.new ≡ record self.old { written = put nat_cmp cell value self.old.written }) }
        ensures err { OnErr result (self.new ≡ self.old) }
    {
        let Some((at, place)) = find_cell(self.under, self.over, &self.bundles, cell) else {
            unreachable!()
        };
        let before = value_there(&self.bundles, at, place);
        keep_old(&mut self.olds, cell, before)?;
        put_there(&mut self.bundles, at, place, value);
        Ok(())
    }

    /// Ends a run that a fault of this mask strikes, or none, where it is 0: the mask falls on each cell that was
    /// written. Gives the bundles with their new values, and the old ones. The error is that memory is out, and has the
    /// bundles as they came.
    pub fn finish(
        self,
        alloc: Global,
        mask: i64,
    ) -> Result<(Seq<Bundle>, Seq<(RecNo, i64)>), Seq<Bundle>>
        ensures came { IfOk result (λ left. put_back self.entry.under left.1 left.0 ≡ self.entry.came) }
        ensures written { IfOk result (λ left. map (new_write self.entry.under left.0) left.1 ≡ map (damaged_write mask) self.entry.written) }
        ensures rising { IfOk result (λ left. IsTrue (is_sorted nat_cmp left.1)) }
        ensures within { IfOk result (λ left. All (λ w. is_under self.entry.under (map lock_in self.entry.came) w.0 ≡ true) left.1) }
        ensures back { IfErr result (λ bundles. bundles ≡ self.entry.came) }
    {
        let Ok(olds) = old_values(alloc, &self.olds) else {
            return Err(self.take_back());
        };
        let CellsAtHand {
            under,
            over,
            bundles,
            ..
        } = self;
        let mut bundles = bundles;
        damage(under, over, &mut bundles, &olds, mask);
        Ok((Seq::from_vec(bundles), Seq::from_vec(olds)))
    }

    /// The cells that were written, in rising order, each with the value that it came with and its last one.
    /// The error is that memory is out.
    pub fn changes(&self, alloc: Global) -> Result<Vec<Change>, AllocError>
        ensures { IfOk result (λ changes. map written_to changes.items ≡ self.now.written) }
    {
        let olds = old_values(alloc, &self.olds)?;
        changes_of(alloc, self.under, self.over, &self.bundles, &olds)
    }

    /// Whether the values at hand are those that came, of which this is the sum, with these changes and no others.
    pub fn is_kept(&self, sum: i64, changes: &[Change]) -> bool {
        let mut then = sum;
        for change in changes {
            let old = mixed(change.place, change.old);
            let new = mixed(change.place, change.new);
            then = then.wrapping_add(share(change.lock, new.wrapping_sub(old)));
        }
        sum_of(&self.bundles) == Some(then)
    }

    /// The bundles as they came. Takes no memory.
    pub fn take_back(self) -> Seq<Bundle>
        ensures { result ≡ self.entry.came }
    {
        let CellsAtHand {
            under,
            over,
            bundles,
            olds,
        } = self;
        let mut bundles = bundles;
        let mut olds = olds;
        restore(under, over, &mut bundles, &mut olds);
        Seq::from_vec(bundles)
    }
}
