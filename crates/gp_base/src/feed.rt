// Values that a run is given and only reads.
ghost use Rattle.std.specs.Prelude.{◌≡◌, ◌<◌, ◌≤◌, ◌%◌, length};
ghost use Rattle.gp_base.specs.declared.limits.TheConstants.{MOST_FEED_CELLS};

use crate::{Nums, Seq};

/// The rows of a feed, cell after cell: each row has `fields` cells, at least one, and there are at most
/// [`MOST_FEED_CELLS`](crate::limits::MOST_FEED_CELLS) cells.
#[derive(Drop)]
pub struct Feed {
    pub fields: u32,
    pub cells: Nums,
    pub ghost some_field: { 0 < fields },
    pub ghost whole_rows: { length cells % fields ≡ 0 },
    pub ghost few_cells: { length cells ≤ MOST_FEED_CELLS },
}

impl Feed {
    ghost use Rattle.std.specs.Prelude.{pos};
    ghost use Rattle.gp_base.specs.meaning.Feeds.{rows_in, cell_at};

    /// The feed of these cells. Takes no memory.
    pub fn new(fields: u32, cells: Nums) -> Feed
        requires some_field { 0 < fields }
        requires whole_rows { length cells % fields ≡ 0 }
        requires few_cells { length cells ≤ MOST_FEED_CELLS }
        ensures fields { result.fields ≡ fields }
        ensures cells { result.cells ≡ cells }
    {
        Feed { fields, cells }
    }

    /// How many rows there are.
    pub fn rows(&self) -> i64
        ensures { result ≡ pos (rows_in self.now) }
    {
        (self.cells.len() / self.fields as usize) as i64
    }

    /// The cell in a row and a field, both counted from 0, or `None` outside the feed.
    pub fn cell(&self, row: i64, field: i64) -> Option<i64>
        ensures { result ≡ cell_at self.now row field }
    {
        if row < 0 || field < 0 {
            return None;
        }
        self.at(row as usize, field as usize)
    }

    // The cell in a row and a field.
    #[tactic(auto, using(crate::proofs::FeedLemmas::cell_past))]
    fn at(&self, row: usize, field: usize) -> Option<i64>
        ensures { result ≡ cell_at self.now (pos row) (pos field) }
    {
        let fields = self.fields as usize;
        // Each row has a cell at least, so there are no more rows than cells, and the product below stays small.
        if field >= fields || row >= self.cells.len() {
            return None;
        }
        self.cells.get(row * fields + field).copied()
    }
}

/// What a run reads: the cells of all records, and the feeds, both in declared order.
#[derive(Drop)]
pub struct Inputs {
    pub records: Nums,
    pub feeds: Seq<Feed>,
}
