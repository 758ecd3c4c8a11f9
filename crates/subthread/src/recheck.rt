// Whether the walks of a batch are made twice and compared, and what was seen of it.

ghost use Rattle.std.specs.Prelude.{◌≡◌, false, [], Some, None, is_some, unwrap_or, MatchOption, IfSome};
ghost use Rattle.subthread.specs.meaning.Flaws.{Strikes, Spares};
ghost use Rattle.subthread.specs.declared.flaw.Made.{Made as MadeSo};

use crate::flaw::{Flaw, Made, flaw_among};
use gp_base::{Feed, Lines, Nums, Pos, Seq};
use record_store::mixed;
use std::alloc::{AllocError, Global};
use std::marker::Model;
use std::sync::atomic::{AtomicU64, Ordering};

/// What is turned: of the summary of a walk, so that it differs from the walk, a bit of the old value of a cell that it
/// wrote; or of what it leaves at rest, a bit of the sum of a bundle, or of that of registers; or a bit of each sum of the
/// feeds; or of a text that is to be written, a bit of its first byte; or what a file is read to is taken for another. By a
/// refusal nothing is turned, but memory is out when two walks are compared.
#[derive(Clone, Copy, PartialEq, Eq)]
pub enum Disturbance {
    OldValue,
    BundleSum,
    RegisterSum,
    FeedSum,
    Text,
    Reading,
    Refusal,
}

// How many cells of a feed stand under one sum: a read of one goes over all of them, and the sums take an eighth of the
// memory of the feeds.
const CELLS_A_SUM: usize = 8;

// The sum over a piece of a feed: its form, and the cells of the piece.
fn sum_of(feed: &Feed, piece: usize) -> i64 {
    let cells = feed.cells.as_slice();
    let mut sum = mixed(cells.len(), i64::from(feed.fields));
    let first = piece.saturating_mul(CELLS_A_SUM);
    for place in first..first.saturating_add(CELLS_A_SUM) {
        if let Some(cell) = cells.get(place) {
            sum = sum.wrapping_add(mixed(place, *cell));
        }
    }
    sum
}

// The sums over all pieces of a feed, with these bits turned; the last piece may have no cell. The error is that memory is
// out.
fn sums_over(alloc: Global, feed: &Feed, turned: i64) -> Result<Nums, AllocError> {
    let mut sums = Seq::new(alloc);
    for piece in 0..=feed.cells.len() / CELLS_A_SUM {
        sums.push(sum_of(feed, piece) ^ turned)?;
    }
    Ok(sums)
}

/// Whether each walk of a batch is made twice and compared, and a sum is kept of what it leaves at rest and of the feeds;
/// how often walks differed; which task's could not be agreed on, and at which one data were not as they were left. All
/// workers of the batch share it, and write it in no order; nothing hangs on it but what is told of it. Where walks are made
/// twice, the flaws of the machine stand with it, by which they err; a machine that never errs has none. Contracts see a
/// recheck as these flaws, and as none where walks are made once.
pub struct Recheck {
    flaws: Option<Seq<Flaw>>,
    disturbance: Option<Disturbance>,
    feeds: Option<Lines>,
    to_disturb: AtomicU64,
    differed: AtomicU64,
    last: AtomicU64,
    disagreed: AtomicU64,
    damaged: AtomicU64,
}

impl Model for Recheck {
    ghost use Rattle.std.specs.Prelude.{List, Option};
    ghost use Rattle.subthread.specs.declared.flaw.Flaw.{Flaw};

    ghost Value = { Option (List Flaw) };

    ghost view = { λ r. r.flaws };
}

impl Drop for Recheck {
    fn drop(self) {
        let Self {
            flaws: _,
            disturbance: _,
            feeds: _,
            to_disturb: _,
            differed: _,
            last: _,
            disagreed: _,
            damaged: _,
        } = self;
    }
}

impl Recheck {
    // Walks are made twice where there are flaws, be it none.
    fn made(flaws: Option<Seq<Flaw>>, disturbance: Option<Disturbance>, walks: u64) -> Recheck
        ensures { result ≡ flaws }
    {
        Recheck {
            flaws,
            disturbance,
            feeds: None,
            to_disturb: AtomicU64::new(walks),
            differed: AtomicU64::new(0),
            last: AtomicU64::new(0),
            disagreed: AtomicU64::new(0),
            damaged: AtomicU64::new(0),
        }
    }

    /// Each walk is made once, and no sum of data at rest is kept.
    pub fn once() -> Recheck
        ensures once { result ≡ None }
        ensures spared { IfSome result Spares }
    {
        Recheck::made(None, None, 0)
    }

    /// Each walk is made twice and compared, and sums of data at rest are kept and asked.
    #[tactic(auto, using(crate::proofs::Agreed::none_spared))]
    pub fn twice(alloc: Global) -> Recheck
        ensures twice { result ≡ Some [] }
        ensures spared { IfSome result Spares }
    {
        Recheck::erring(Seq::new(alloc))
    }

    /// Each walk is made twice, and the summaries of so many walks, or the sums of what they leave, are disturbed so, the
    /// first ones that can be: a fault of the machine that a test makes.
    #[tactic(auto, using(crate::proofs::Agreed::none_spared))]
    pub fn disturbing(alloc: Global, disturbance: Disturbance, walks: u64) -> Recheck
        ensures twice { result ≡ Some [] }
        ensures spared { IfSome result Spares }
    {
        Recheck::made(Some(Seq::new(alloc)), Some(disturbance), walks)
    }

    /// Each walk is made twice, as by `twice`, on a machine with these flaws.
    pub fn erring(flaws: Seq<Flaw>) -> Recheck
        ensures { result ≡ Some flaws }
    {
        Recheck::made(Some(flaws), None, 0)
    }

    /// What a flaw of the machine makes of a walk of an attempt of the subthread at a position, where it has one.
    pub fn flaw_of(&self, pos: Pos, attempt: u32, walk: u32) -> Option<&Made>
        ensures { MatchOption result ((made : MadeSo) → Strikes (unwrap_or self.now []) pos attempt walk made → ⊥) (λ made. Strikes (unwrap_or self.now []) pos attempt walk made.now) }
    {
        match &self.flaws {
            Some(flaws) => flaw_among(flaws.as_slice(), pos, attempt, walk),
            None => None,
        }
    }

    /// Whether walks are made twice, and sums of data at rest are kept and asked.
    pub fn is_on(&self) -> bool
        ensures is { result ≡ is_some self.now }
        ensures off { result ≡ false → self.now ≡ None }
    {
        self.flaws.is_some()
    }

    /// Keeps sums over the feeds of the batch as they now are, where sums are kept. The error is that memory is out.
    pub fn keep_feeds(&mut self, alloc: Global, feeds: &[Feed]) -> Result<(), AllocError>
        ensures { self.new ≡ self.old }
    {
        if self.flaws.is_none() {
            return Ok(());
        }
        let turned = i64::from(self.disturbs(Disturbance::FeedSum));
        let mut all = Seq::new(alloc);
        for feed in feeds {
            all.push(sums_over(alloc, feed, turned)?)?;
        }
        self.feeds = Some(all);
        Ok(())
    }

    /// Whether the feed of this number is as it was when the sums were made, as far as they tell: its form, and the cells
    /// that stand beside the one in a row and a field, with that one. True where none were made.
    pub fn is_as_read(&self, number: usize, feed: &Feed, row: i64, field: i64) -> bool {
        let Some(feeds) = &self.feeds else {
            return true;
        };
        let place = row.wrapping_mul(i64::from(feed.fields)).wrapping_add(field);
        let place = usize::try_from(place).unwrap_or(0).min(feed.cells.len());
        let piece = place / CELLS_A_SUM;
        match feeds.get(number).and_then(|sums| sums.get(piece)) {
            Some(sum) => *sum == sum_of(feed, piece),
            None => false,
        }
    }

    /// Whether the next walk is disturbed so; it then counts as disturbed.
    pub fn disturbs(&self, disturbance: Disturbance) -> bool {
        if self.disturbance != Some(disturbance) {
            return false;
        }
        let left = self.to_disturb.load(Ordering::SeqCst);
        if left == 0 {
            return false;
        }
        self.to_disturb
            .compare_exchange(left, left - 1, Ordering::SeqCst, Ordering::SeqCst)
            .is_ok()
    }

    /// Turns a bit of the first byte of a text that is to be written, where it is disturbed so; of no byte, none.
    pub fn disturb_text(&self, text: &mut [u8]) {
        if !text.is_empty() && self.disturbs(Disturbance::Text) {
            text[0] ^= 1;
        }
    }

    /// Notes that two walks of the task at a position differed, which they never do without a fault of the machine.
    pub fn note(&self, pos: Pos) {
        self.differed.fetch_add(1, Ordering::SeqCst);
        self.last.store(u64::from(pos.0), Ordering::SeqCst);
    }

    /// Notes that the walks of the task at a position could not be agreed on: three differed, or the cells that came
    /// could not be had back.
    pub fn note_disagreed(&self, pos: Pos) {
        self.disagreed
            .store(u64::from(pos.0).saturating_add(1), Ordering::SeqCst);
    }

    /// Notes that data at rest are not as they were left: the registers or record cells that the task at a position is
    /// lent, what it reads of a feed, or the record cells or the text that are there when it retires.
    pub fn note_damaged(&self, pos: Pos) {
        self.damaged
            .store(u64::from(pos.0).saturating_add(1), Ordering::SeqCst);
    }

    /// How many times walks differed.
    pub fn differed(&self) -> u64 {
        self.differed.load(Ordering::SeqCst)
    }

    /// The position of the last task whose walks differed, or 0.
    pub fn last(&self) -> u64 {
        self.last.load(Ordering::SeqCst)
    }

    /// The position of the last task whose walks could not be agreed on, which stopped the run.
    pub fn disagreed(&self) -> Option<u64> {
        self.disagreed.load(Ordering::SeqCst).checked_sub(1)
    }

    /// The position of the last task at which data were not as they were left, which stopped the run.
    pub fn damaged(&self) -> Option<u64> {
        self.damaged.load(Ordering::SeqCst).checked_sub(1)
    }

    /// Whether either stopped the run.
    pub fn has_stopped(&self) -> bool {
        self.disagreed().is_some() || self.damaged().is_some()
    }
}
