// Files of feeds: the cells of one row of a feed in each row.
ghost use Rattle.std.specs.Prelude.{◌≡◌, ◌≤◌, ◌<◌, IfOk};
ghost use Rattle.csv.specs.Records.{fields_of};
ghost use Rattle.gp_base.specs.declared.limits.TheConstants.{MOST_FEED_CELLS};
ghost use Rattle.batch_files.specs.meaning.Rows.{csv_rows};
ghost use Rattle.batch_files.specs.meaning.Feeds as spec;
ghost use Rattle.batch_files.specs.Feeds.{AreCells};
ghost use Rattle.batch_files.specs.Answers.{Answers, PushesNumbers};

use crate::fault::{FileFault, FileKind, RowFault};
use crate::numbers::number_at;
use crate::rows::{Table, put_rows};
use csv::ByteRecord;
use gp_base::{Feed, Seq, Text};
use std::alloc::Global;

/// The feed with so many fields by its file, whose rows are its rows, where all feeds have room for so many more cells.
/// `Bad` tells the first row that breaks a rule, with the first rule that it breaks: as many fields as the feed has,
/// which are numbers, and no more cells than there is room for.
pub fn read_feed(alloc: Global, bytes: &Text, fields: u32, room: u32) -> Result<Feed, FileFault>
    requires some_field { 0 < fields }
    requires room { room ≤ MOST_FEED_CELLS }
    ensures cells { Answers (λ feed. feed.cells) result (spec.feed_by fields room (csv_rows bytes.now)) }
    ensures fields { IfOk result (λ feed. feed.fields ≡ fields) }
{
    let table = FeedTable {
        fields: fields as usize,
        room: room as usize,
        cells: Vec::new(alloc),
    };
    let table = put_rows(alloc, bytes.as_slice(), table)?;
    Ok(Feed::new(fields, Seq::from_vec(table.cells)))
}

// Puts the numbers of a row's fields at the end of a list, unless a field is no number.
fn push_numbers(cells: &mut Vec<i64>, row: &ByteRecord) -> Result<(), RowFault>
    ensures { PushesNumbers (spec.numbers_of (fields_of row.now)) cells.old.items cells.new.items result }
{
    for field in 0..row.len() {
        let Some(number) = number_at(row, field) else {
            return Err(RowFault::Breaks(FileKind::Number));
        };
        cells.push(number)?;
    }
    Ok(())
}

// The cells of a feed while its rows are read.
#[derive(Drop)]
struct FeedTable {
    fields: usize,
    room: usize,
    cells: Vec<i64>,
}

impl Table for FeedTable {
    ghost rule = { λ begun. spec.feed_rule begun.fields begun.room };

    ghost holds = { λ begun table rows. (table.fields ≡ begun.fields) × (table.room ≡ begun.room)
        × AreCells begun.fields begun.room rows table.cells.items };

    fn put(&mut self, row: &ByteRecord) -> Result<(), RowFault> {
        if row.len() != self.fields {
            return Err(RowFault::Breaks(FileKind::Fields));
        }
        push_numbers(&mut self.cells, row)?;
        if self.cells.len() > self.room {
            return Err(RowFault::Breaks(FileKind::TooMany));
        }
        Ok(())
    }
}
