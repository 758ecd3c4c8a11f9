// Where the elements of a picture stand: columns in bands, in a band a row for each thread, and in a row a lane for each
// attempt. No contract says where, since the promise leaves that open.
ghost use Rattle.std.specs.Prelude.{◌≡◌, ◌≤◌, length};
ghost use Rattle.run_picture.specs.inner.Drawn.{shows_in};

use crate::columns::is_touched;
use crate::elements::{NOWHERE, Place};
use gp_base::{Restart, ThreadNo};
use one_thread::Step;
use run_views::attempt_of;
use std::alloc::{AllocError, Global};

// How many positions a band has at most; how many positions that no restart touches are told together at least, but for
// some beside one that is touched.
const WIDEST: usize = 32;

const LONG: usize = 64;

const BESIDE: usize = 4;

// The distances from the left, from one column to the next, and from one lane to the next.
const LEFT: u64 = 50;

const COLUMN: u64 = 46;

const LANE: u64 = 14;

/// A band of positions: its upper edge, its first position and how many it has, whether they have columns, how many lanes
/// a row has, and the threads that have a row.
#[derive(Drop)]
pub struct Band {
    pub top: u64,
    pub first: usize,
    pub count: usize,
    pub shown: bool,
    pub lanes: u64,
    pub threads: Vec<u32>,
}

/// The bands of a picture: which positions have a column, the number of the band of each, the bands, the width of the
/// picture, and the lower edge of the last band.
#[derive(Drop)]
pub struct Bands {
    pub shown: Vec<bool>,
    pub numbers: Vec<usize>,
    pub bands: Vec<Band>,
    pub width: u64,
    pub foot: u64,
}

// So many times a size past an edge.
fn past(edge: u64, count: u64, size: u64) -> u64 {
    edge.saturating_add(count.saturating_mul(size))
}

/// The place of one more mark beside one at this place: the same line, and the next number.
pub fn beside(place: Place) -> Place {
    Place {
        across: place.across.saturating_add(18),
        ..place
    }
}

impl Band {
    // The height of a row.
    fn row_height(&self) -> u64 {
        past(4, self.lanes, LANE)
    }

    // The height of all rows.
    fn rows_height(&self) -> u64 {
        self.row_height().saturating_mul(self.threads.len() as u64)
    }

    // The lower edge of the band.
    fn foot(&self) -> u64 {
        if self.shown {
            self.top
                .saturating_add(self.rows_height())
                .saturating_add(40)
        } else {
            self.top.saturating_add(30)
        }
    }

    // The left edge of a position's column.
    fn left(&self, position: usize) -> u64 {
        past(LEFT, position.saturating_sub(self.first) as u64, COLUMN)
    }

    // How many threads below this one have a row.
    fn rows_above(&self, thread: u32) -> u64 {
        let mut rows: u64 = 0;
        for other in &self.threads {
            if *other < thread {
                rows = rows.saturating_add(1);
            }
        }
        rows
    }

    // The upper edge of a thread's row.
    fn row_top(&self, thread: u32) -> u64 {
        past(
            self.top.saturating_add(16),
            self.rows_above(thread),
            self.row_height(),
        )
    }

    /// The place of a thread's row.
    pub fn row_place(&self, thread: u32) -> Place {
        let top = self.row_top(thread);
        Place {
            left: LEFT,
            top,
            width: (self.count as u64).saturating_mul(COLUMN),
            height: self.row_height().saturating_sub(2),
            across: LEFT.saturating_sub(6),
            base: top.saturating_add(11),
        }
    }
}

impl Bands {
    /// Whether a position has a column though no restart touches it.
    pub fn shows(&self, position: usize) -> bool
        ensures { result ≡ shows_in self.now position }
    {
        match self.shown.get(position) {
            Some(shown) => *shown,
            None => false,
        }
    }

    // The band of a position.
    fn band_of(&self, position: usize) -> Option<&Band> {
        self.bands.get(*self.numbers.get(position)?)
    }

    /// The place of the box of an attempt.
    pub fn box_place(&self, position: usize, thread: ThreadNo, attempt: u64) -> Place {
        let Some(band) = self.band_of(position) else {
            return NOWHERE;
        };
        let left = band.left(position);
        let top = past(band.row_top(thread.0).saturating_add(2), attempt, LANE);
        Place {
            left,
            top,
            width: 44,
            height: 12,
            across: left.saturating_add(22),
            base: top.saturating_add(10),
        }
    }

    /// The place of the number of a position.
    pub fn column_place(&self, position: usize) -> Place {
        let Some(band) = self.band_of(position) else {
            return NOWHERE;
        };
        let left = band.left(position);
        Place {
            left,
            top: band.top.saturating_add(2),
            width: 44,
            height: 12,
            across: left.saturating_add(22),
            base: band.top.saturating_add(12),
        }
    }

    /// The place of the mark of a restart that has its front right after a position.
    pub fn front_place(&self, position: usize) -> Place {
        let Some(band) = self.band_of(position) else {
            return NOWHERE;
        };
        let left = past(band.left(position), 1, 44);
        Place {
            left,
            top: band.top.saturating_add(14),
            width: 2,
            height: band.rows_height().saturating_add(2),
            across: left.saturating_sub(2),
            base: past(band.top.saturating_add(27), 1, band.rows_height()),
        }
    }

    /// The place of what stands for positions without a column, from this one on.
    pub fn fold_place(&self, position: usize) -> Place {
        let Some(band) = self.band_of(position) else {
            return NOWHERE;
        };
        Place {
            left: LEFT,
            top: band.top.saturating_add(4),
            width: self.width.saturating_sub(60),
            height: 18,
            across: LEFT.saturating_add(10),
            base: band.top.saturating_add(17),
        }
    }

    /// The place of the note of a restart by its number.
    pub fn note_place(&self, number: u64) -> Place {
        let base = past(self.foot, number, 16);
        Place {
            left: LEFT,
            top: base.saturating_sub(12),
            width: self.width.saturating_sub(60),
            height: 14,
            across: LEFT,
            base,
        }
    }

    /// The height of the picture, with notes of so many restarts.
    pub fn height(&self, restarts: usize) -> u64 {
        past(self.foot.saturating_add(20), restarts as u64, 16)
    }
}

// Which of so many positions a restart touches.
fn touched_in(
    alloc: Global,
    restarts: &[Restart],
    positions: usize,
) -> Result<Vec<bool>, AllocError>
    requires { positions ≤ 200000 }
{
    let mut touched = Vec::new(alloc);
    for position in 0..positions {
        touched.push(is_touched(restarts, position))?;
    }
    Ok(touched)
}

// Adds which of so many positions that no restart touches have a column: all, or, where these are many, those beside one
// that is touched. None is touched before the first of all, and none after the last of all.
fn push_untouched(
    shown: &mut Vec<bool>,
    count: usize,
    is_first: bool,
    is_last: bool,
) -> Result<(), AllocError> {
    for at in 0..count {
        let begins = at < BESIDE && !is_first;
        let ends = count.saturating_sub(at) <= BESIDE && !is_last;
        shown.push(count < LONG || begins || ends)?;
    }
    Ok(())
}

// Which positions have a column, where a restart touches these.
fn shown_by(alloc: Global, touched: &[bool]) -> Result<Vec<bool>, AllocError> {
    let mut shown = Vec::new(alloc);
    let mut first: usize = 0;
    for (position, is_touched) in touched.iter().enumerate() {
        if *is_touched {
            let count = position.saturating_sub(first);
            push_untouched(&mut shown, count, first == 0, false)?;
            shown.push(true)?;
            first = position.saturating_add(1);
        }
    }
    let count = touched.len().saturating_sub(first);
    push_untouched(&mut shown, count, first == 0, true)?;
    Ok(shown)
}

// Whether a band that begins at one position ends with another.
fn is_last(shown: &[bool], first: usize, position: usize) -> bool {
    let next = position.saturating_add(1);
    match (shown.get(first), shown.get(next)) {
        (Some(here), Some(there)) => {
            *here != *there || *here && next.saturating_sub(first) >= WIDEST
        }
        _ => true,
    }
}

// How many lanes the attempts of so many positions take, from this one on.
fn lanes_of(restarts: &[Restart], first: usize, count: usize) -> u64 {
    let mut lanes: u64 = 1;
    for at in 0..count {
        let position = first.saturating_add(at) as u64;
        lanes = lanes.max(attempt_of(restarts, position).saturating_add(1));
    }
    lanes
}

// The threads of so many steps, from this one on, each once, in rising order.
fn threads_of(
    alloc: Global,
    order: &[Step],
    first: usize,
    count: usize,
) -> Result<Vec<u32>, AllocError> {
    let mut all = Vec::new(alloc);
    for at in 0..count {
        if let Some(step) = order.get(first.saturating_add(at)) {
            all.push(step.thread.0)?;
        }
    }
    all.sort()?;
    let mut threads = Vec::new(alloc);
    let mut last = None;
    for thread in &all {
        if last != Some(*thread) {
            threads.push(*thread)?;
        }
        last = Some(*thread);
    }
    Ok(threads)
}

// The band of so many positions from this one on, with this upper edge.
fn band_from(
    alloc: Global,
    restarts: &[Restart],
    order: &[Step],
    top: u64,
    first: usize,
    count: usize,
    shown: bool,
) -> Result<Band, AllocError> {
    let (lanes, threads) = if shown {
        let threads = threads_of(alloc, order, first, count)?;
        (lanes_of(restarts, first, count), threads)
    } else {
        (1, Vec::new(alloc))
    };
    Ok(Band {
        top,
        first,
        count,
        shown,
        lanes,
        threads,
    })
}

/// The bands of a run with these restarts, the first of which has this upper edge. The error is that memory is out.
pub fn bands_of(
    alloc: Global,
    restarts: &[Restart],
    order: &[Step],
    top: u64,
) -> Result<Bands, AllocError>
    requires { length order.now ≤ 200000 }
{
    let touched = touched_in(alloc, restarts, order.len())?;
    let shown = shown_by(alloc, &touched)?;
    let mut bands = Bands {
        shown: Vec::new(alloc),
        numbers: Vec::new(alloc),
        bands: Vec::new(alloc),
        width: 680,
        foot: top,
    };
    let mut first: usize = 0;
    for (position, is_shown) in shown.iter().enumerate() {
        bands.numbers.push(bands.bands.len())?;
        if is_last(&shown, first, position) {
            let count = position.saturating_add(1).saturating_sub(first);
            let band = band_from(alloc, restarts, order, bands.foot, first, count, *is_shown)?;
            bands.foot = band.foot();
            if *is_shown {
                bands.width = bands.width.max(past(60, count as u64, COLUMN));
            }
            bands.bands.push(band)?;
            first = position.saturating_add(1);
        }
    }
    bands.shown = shown;
    Ok(bands)
}
