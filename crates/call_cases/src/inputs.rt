// Reads the files that a program names, in declared order.
ghost use Rattle.std.specs.Prelude.{◌≡◌, ◌<◌, ◌≤◌, ◌+◌, ◌-◌, ◌^◌, [], ◌∷◌, ◌++◌, length, map, List, replicate, pos, IfOk, IfSome, OnOk};
ghost use Rattle.gp_base.specs.declared.limits.TheConstants.{MOST_FEED_CELLS, MOST_FILE_BYTES};
ghost use Rattle.gp_base.specs.meaning.Files.{bytes_of};
ghost use Rattle.task_ast.specs.meaning.Tree.{Name};
ghost use Rattle.task_ast.specs.Inputs.{fields_in};
ghost use Rattle.batch_files.specs.meaning.Records.{records_by};
ghost use Rattle.batch_files.specs.meaning.Feeds.{feed_by};
ghost use Rattle.batch_files.specs.meaning.Faults.{faults_by};
ghost use Rattle.call_cases.specs.meaning.Lines.{input_line, kind_number};
ghost use Rattle.call_cases.specs.meaning.InputFiles.{no_inputs, room_after, by_file, by_record, more_cells, more_feed, load_head, load_faults, load};
ghost use Rattle.call_cases.specs.InputFiles.{named, names_in, file_names};
ghost use Rattle.call_cases.specs.Refusals.{IsInputRefused, IsUnread, ReadsAmong, AnswersFile};
ghost use Rattle.call_cases.specs.inner.Loading.{RefusesFile, AnswersRows, IsReadable, AreReadable, seen, StepsTo, AnswersLoad, AnswersFaults, Grows, Counts};

use crate::agreed::{Reading, cells_in, feed_in};
use crate::lines::input_line;
use crate::reading::Refusal;
use batch_files::{FileFault, FileKind, read_faults};
use gp_base::limits::{MOST_FEED_CELLS, MOST_FILE_BYTES};
use gp_base::{Faults, Feed, Inputs, Name, Nums, Seq, Shelf, ShelfFault, Text};
use std::alloc::{AllocError, Global};
use task_ast::{Head, natural};

// The number of a rule of files.
fn kind_number(kind: FileKind) -> u8
    ensures { result ≡ kind_number kind }
{
    match kind {
        FileKind::Fields => 1,
        FileKind::Number => 2,
        FileKind::Range => 3,
        FileKind::Twice => 4,
        FileKind::TooMany => 5,
    }
}

/// The refusal of a file by a rule at a row.
pub fn refused_input(alloc: Global, name: &Name, kind: u8, row: u32) -> Refusal
    ensures { IsInputRefused (input_line name.now kind row) result }
{
    match input_line(alloc, name, kind, row) {
        Ok(line) => Refusal::BadInput(Text::from_vec(line)),
        Err(_) => Refusal::OutOfMemory,
    }
}

// The refusal of a file with this fault.
fn refused_file(alloc: Global, name: &Name, fault: FileFault) -> Refusal
    ensures { RefusesFile name.now fault result }
{
    match fault {
        FileFault::Bad { kind, row } => refused_input(alloc, name, kind_number(kind), row),
        FileFault::OutOfMemory => Refusal::OutOfMemory,
    }
}

// The refusal of a file whose read failed.
fn unread(alloc: Global, name: &Name) -> Refusal
    ensures { IsUnread name.now result }
{
    match name.copied(alloc) {
        Ok(name) => Refusal::ReadFault(name),
        Err(_) => Refusal::OutOfMemory,
    }
}

/// The bytes of a file. The error is that it can't be read, that it is longer than a file may be (kind 6, row 0), or
/// that memory is out.
pub fn read_file<H: Shelf>(alloc: Global, shelf: &mut H, name: &Name) -> Result<Text, Refusal>
    ensures kept { H.files shelf.new ≡ H.files shelf.old }
    ensures failed { ReadsAmong (name.now ∷ []) (H.failed shelf.old) (H.failed shelf.new) result }
    ensures told { IfSome (H.files shelf.old) (λ files. AnswersFile name.now (bytes_of files name.now) result) }
    ensures size { IfOk result (λ text. length text ≤ MOST_FILE_BYTES) }
{
    match shelf.read(name, MOST_FILE_BYTES) {
        Ok(text) => Ok(text),
        Err(ShelfFault::TooLong) => Err(refused_input(alloc, name, 6, 0)),
        Err(ShelfFault::Failed) => Err(unread(alloc, name)),
        Err(ShelfFault::OutOfMemory) => Err(Refusal::OutOfMemory),
    }
}

// The cells of a record of this size, by its file.
fn record_cells<H: Shelf>(
    alloc: Global,
    shelf: &mut H,
    name: &Name,
    size: u32,
    reading: Reading,
) -> Result<Nums, Refusal>
    ensures kept { H.files shelf.new ≡ H.files shelf.old }
    ensures failed { ReadsAmong (name.now ∷ []) (H.failed shelf.old) (H.failed shelf.new) result }
    ensures told { IfSome (H.files shelf.old) (λ files.
        AnswersRows (λ cells. cells) name.now (records_by size) (bytes_of files name.now) result) }
    ensures size { IfOk result (λ cells. length cells ≡ size) }
{
    let text = read_file(alloc, shelf, name)?;
    match cells_in(alloc, &text, size, reading) {
        Ok(cells) => Ok(cells),
        Err(fault) => Err(refused_file(alloc, name, fault)),
    }
}

// The feed with so many fields, by its file, where there is room for so many cells.
fn feed_of<H: Shelf>(
    alloc: Global,
    shelf: &mut H,
    name: &Name,
    fields: u32,
    room: u32,
    reading: Reading,
) -> Result<Feed, Refusal>
    requires some_field { 0 < fields }
    requires room { room ≤ MOST_FEED_CELLS }
    ensures kept { H.files shelf.new ≡ H.files shelf.old }
    ensures failed { ReadsAmong (name.now ∷ []) (H.failed shelf.old) (H.failed shelf.new) result }
    ensures told { IfSome (H.files shelf.old) (λ files.
        AnswersRows (λ feed. feed.cells) name.now (feed_by fields room) (bytes_of files name.now) result) }
    ensures fields { IfOk result (λ feed. feed.fields ≡ fields) }
{
    let text = read_file(alloc, shelf, name)?;
    match feed_in(alloc, &text, fields, room, reading) {
        Ok(feed) => Ok(feed),
        Err(fault) => Err(refused_file(alloc, name, fault)),
    }
}

/// What was read so far, how many cells of feeds there is room for, and how files are read.
#[derive(Drop)]
pub struct Loading {
    pub records: Vec<i64>,
    pub feeds: Vec<Feed>,
    pub room: u32,
    pub reading: Reading,
}

impl Loading {
    // Puts the cells of a record at the end.
    fn put_cells(&mut self, cells: &[i64]) -> Result<(), AllocError>
        ensures records { OnOk result (self.new.records.items ≡ self.old.records.items ++ cells.now) }
        ensures feeds { self.new.feeds.items ≡ self.old.feeds.items }
        ensures room { self.new.room ≡ self.old.room }
    {
        self.records.extend_from_slice(cells)
    }

    // Puts a record of this size at the end, whose cells are 0.
    fn put_zeros(&mut self, alloc: Global, size: u32) -> Result<(), AllocError>
        ensures records { OnOk result (self.new.records.items ≡ self.old.records.items ++ replicate size (pos 0)) }
        ensures feeds { self.new.feeds.items ≡ self.old.feeds.items }
        ensures room { self.new.room ≡ self.old.room }
    {
        let zeros = Vec::from_elem(alloc, 0, size as usize)?;
        self.put_cells(&zeros)
    }

    // Puts a feed at the end, which takes its room.
    fn put_feed(&mut self, feed: Feed) -> Result<(), AllocError>
        ensures records { self.new.records.items ≡ self.old.records.items }
        ensures feeds { OnOk result (self.new.feeds.items ≡ self.old.feeds.items ++ feed ∷ []) }
        ensures room { self.new.room ≡ self.old.room - length feed.cells }
    {
        self.room = self.room.saturating_sub(feed.cells.len() as u32);
        match self.feeds.push(feed) {
            Ok(()) => Ok(()),
            Err(_) => Err(AllocError),
        }
    }
}

// Puts the cells of a record of this size, by its file.
fn load_cells<H: Shelf>(
    alloc: Global,
    shelf: &mut H,
    file: &Name,
    size: u32,
    loading: &mut Loading,
) -> Result<(), Refusal>
    ensures kept { H.files shelf.new ≡ H.files shelf.old }
    ensures failed { ReadsAmong (file.now ∷ []) (H.failed shelf.old) (H.failed shelf.new) result }
    ensures told { IfSome (H.files shelf.old) (λ files. (names : List Name) →
        StepsTo names (file.now ∷ []) (by_file names file.now (bytes_of files file.now) (records_by size) (more_cells (seen loading.old))) (seen loading.new) result) }
    ensures records { OnOk result (length loading.new.records.items ≡ length loading.old.records.items + size) }
    ensures feeds { loading.new.feeds.items ≡ loading.old.feeds.items }
    ensures room { loading.new.room ≡ loading.old.room }
{
    let cells = match record_cells(alloc, shelf, file, size, loading.reading) {
        Ok(cells) => cells,
        Err(refusal) => return Err(refusal),
    };
    loading.put_cells(cells.as_slice())?;
    Ok(())
}

// Puts the cells of a record of this size: by its file, or 0 where it names none.
fn load_record<H: Shelf>(
    alloc: Global,
    shelf: &mut H,
    from: &Option<Name>,
    size: u32,
    loading: &mut Loading,
) -> Result<(), Refusal>
    ensures kept { H.files shelf.new ≡ H.files shelf.old }
    ensures failed { ReadsAmong (named from.now) (H.failed shelf.old) (H.failed shelf.new) result }
    ensures told { IfSome (H.files shelf.old) (λ files. (names : List Name) →
        StepsTo names (named from.now) (by_record files names (seen loading.old) size from.now) (seen loading.new) result) }
    ensures records { OnOk result (length loading.new.records.items ≡ length loading.old.records.items + size) }
    ensures feeds { loading.new.feeds.items ≡ loading.old.feeds.items }
    ensures room { loading.new.room ≡ loading.old.room }
{
    match from {
        Some(file) => load_cells(alloc, shelf, file, size, loading),
        None => {
            loading.put_zeros(alloc, size)?;
            Ok(())
        }
    }
}

// Puts a feed with so many fields, by its file.
fn load_feed<H: Shelf>(
    alloc: Global,
    shelf: &mut H,
    file: &Name,
    fields: u32,
    loading: &mut Loading,
) -> Result<(), Refusal>
    requires some_field { 0 < fields }
    requires room { loading.old.room ≡ room_after loading.old.feeds.items }
    ensures kept { H.files shelf.new ≡ H.files shelf.old }
    ensures failed { ReadsAmong (file.now ∷ []) (H.failed shelf.old) (H.failed shelf.new) result }
    ensures told { IfSome (H.files shelf.old) (λ files. (names : List Name) →
        StepsTo names (file.now ∷ []) (by_file names file.now (bytes_of files file.now) (feed_by fields (room_after loading.old.feeds.items)) (more_feed (seen loading.old) fields)) (seen loading.new) result) }
    ensures room { OnOk result (loading.new.room ≡ room_after loading.new.feeds.items) }
    ensures records { loading.new.records.items ≡ loading.old.records.items }
    ensures feeds { OnOk result (map fields_in loading.new.feeds.items ≡ map fields_in loading.old.feeds.items ++ fields ∷ []) }
{
    let feed = match feed_of(alloc, shelf, file, fields, loading.room, loading.reading) {
        Ok(feed) => feed,
        Err(refusal) => return Err(refusal),
    };
    loading.put_feed(feed)?;
    Ok(())
}

// Reads the file of a head, if it names one.
fn load_head<H: Shelf>(
    alloc: Global,
    shelf: &mut H,
    head: &Head,
    loading: &mut Loading,
) -> Result<(), Refusal>
    requires readable { IsReadable head.now }
    requires room { loading.old.room ≡ room_after loading.old.feeds.items }
    ensures kept { H.files shelf.new ≡ H.files shelf.old }
    ensures failed { ReadsAmong (names_in head.now) (H.failed shelf.old) (H.failed shelf.new) result }
    ensures told { IfSome (H.files shelf.old) (λ files. (names : List Name) →
        StepsTo names (names_in head.now) (load_head files names (seen loading.old) head.now) (seen loading.new) result) }
    ensures grows { OnOk result (Grows head.now (seen loading.old) (seen loading.new)) }
    ensures room { OnOk result (loading.new.room ≡ room_after loading.new.feeds.items) }
{
    match head {
        Head::RecHead { size, from, .. } => {
            load_record(alloc, shelf, from, natural(*size) as u32, loading)
        }
        Head::FeedHead { fields, from, .. } => {
            load_feed(alloc, shelf, from, natural(*fields) as u32, loading)
        }
        _ => Ok(()),
    }
}

/// Reads the files that these heads name, in declared order, each so often. The first that can't be read, or is refused, is
/// the answer.
pub fn read_inputs<H: Shelf>(
    alloc: Global,
    shelf: &mut H,
    heads: &[Head],
    reading: Reading,
) -> Result<Inputs, Refusal>
    requires { AreReadable heads.now }
    ensures kept { H.files shelf.new ≡ H.files shelf.old }
    ensures failed { ReadsAmong (file_names heads.now) (H.failed shelf.old) (H.failed shelf.new) result }
    ensures told { IfSome (H.files shelf.old) (λ files. AnswersLoad (load files [] no_inputs heads.now) (file_names heads.now) result) }
    ensures counts { IfOk result (Counts heads.now) }
{
    let mut loading = Loading {
        records: Vec::new(alloc),
        feeds: Vec::new(alloc),
        room: MOST_FEED_CELLS as u32,
        reading,
    };
    for head in heads {
        match load_head(alloc, shelf, head, &mut loading) {
            Ok(()) => {}
            Err(refusal) => return Err(refusal),
        }
    }
    Ok(Inputs {
        records: Seq::from_vec(loading.records),
        feeds: Seq::from_vec(loading.feeds),
    })
}

// The faults of a file.
fn faults_of<H: Shelf>(alloc: Global, shelf: &mut H, name: &Name) -> Result<Faults, Refusal>
    ensures kept { H.files shelf.new ≡ H.files shelf.old }
    ensures failed { ReadsAmong (name.now ∷ []) (H.failed shelf.old) (H.failed shelf.new) result }
    ensures told { IfSome (H.files shelf.old) (λ files.
        AnswersRows (λ faults. faults.list) name.now faults_by (bytes_of files name.now) result) }
{
    let text = read_file(alloc, shelf, name)?;
    match read_faults(alloc, &text) {
        Ok(faults) => Ok(faults),
        Err(fault) => Err(refused_file(alloc, name, fault)),
    }
}

/// Reads the file of faults, where one is named.
pub fn read_struck<H: Shelf>(
    alloc: Global,
    shelf: &mut H,
    name: &Option<Name>,
) -> Result<Faults, Refusal>
    ensures kept { H.files shelf.new ≡ H.files shelf.old }
    ensures failed { ReadsAmong (named name.now) (H.failed shelf.old) (H.failed shelf.new) result }
    ensures told { IfSome (H.files shelf.old) (λ files. (names : List Name) →
        AnswersFaults names (named name.now) (load_faults files names name.now) result) }
{
    match name {
        Some(file) => faults_of(alloc, shelf, file),
        None => Ok(Faults::none(alloc)),
    }
}
