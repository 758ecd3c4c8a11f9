// Runs of which walks are disturbed, or the sums of what they leave at rest, or that of the feeds, or texts that are to be
// written. What they write was reckoned by hand: the first walk of a run is that of position 0, and where two threads add to
// one total, the first that has a cell is that of position 4.
ghost use Rattle.std.specs.Prelude.{◌≡◌, ◌<◌, ◌%◌, true, is_some, IfOk, IfSome};
ghost use Rattle.gp_base.specs.Files.{HasDistinctNames};
ghost use Rattle.subthread.specs.meaning.Flaws.{Spares};

use batch_fixtures::files::{put, words_of};
use batch_fixtures::programs::ADD;
use gp_base::{Feed, FreeGate, MemShelf, MemSink, Name, Nums, Seq, Text};
use std::alloc::{AllocError, Global};
use std::test::Fail;
use std::thread::Threads;
use subthread::{Disturbance, Recheck};
use twice_calls::{log_told, run_told};

// A cell is written under its lock at position 1. All lines before the settle are published when position 3 begins with
// it, and position 4 is the next that has the cell.
const KEPT: &str = "lock tally[1];
record total[1] by tally;
task main() {
  var n, $x;
  print 1;
  lock tally[0];
  write total[0] = 5;
  unlock tally[0];
  settle $x into n;
  lock tally[0];
  read total[0] into $x;
  unlock tally[0];
  print $x;
}
";

// The cell that is written at position 1 is under no lock after that; position 2 is the last.
const WRITTEN: &str = "lock tally[1];
record total[1] by tally;
task main() {
  print 1;
  lock tally[0];
  write total[0] = 5;
  unlock tally[0];
}
";

// All lines before the settle are published when position 1 begins with it; a row is read first at position 2, and others at
// 4 and 6.
const FED: &str = "lock gate[1];
feed rate[2] from \"r.csv\";
task main() {
  var i, n, $x;
  print 1;
  settle $x into n;
  while i < 3 {
    lock gate[0];
    print rate[i + 6, 1];
    unlock gate[0];
    i = i + 1;
  }
}
";

const FED_TEXT: &str =
    "output\n1\n14\n16\n18\nrecords\nrestarts\ncounts\nsubthreads 8\nrestarts 0\nredone 0\nunused 0\n";

// Of a feed it is only read how many rows it has.
const COUNTED: &str = "feed rate[2] from \"r.csv\";
task main() {
  print rows(rate);
}
";

// The second cell of a lock of one is not there: the only subthread ends with that.
const NO_CELL: &str = "lock tally[1];
task main() {
  var i;
  i = 1;
  lock tally[i];
  unlock tally[i];
}
";

const NO_CELL_TEXT: &str =
    "output\nstuck index thread 0 line 5\nrestarts\ncounts\nsubthreads 1\nrestarts 0\nredone 0\nunused 0\n";

// A loop without an end spends the turns that a subthread may take.
const ENDLESS: &str = "task main() {
  var i;
  while i == 0 { }
}
";

const ENDLESS_TEXT: &str =
    "output\nspent 0\nrestarts\ncounts\nsubthreads 1\nrestarts 0\nredone 0\nunused 0\n";

const RATES: &str = "1,2\n3,4\n5,6\n7,8\n9,10\n11,12\n13,14\n15,16\n17,18\n";

// A fault strikes position 4, and is reported three issues later.
const FAULT: &str = "4,0,3,5\n";

// The crews, in the words that name them.
static CREWS: [&str; 5] = ["one", "wave", "board", "steal", "pipe"];

// What a call answered, and what its sinks took.
#[derive(Drop)]
struct Answer {
    status: u8,
    output: MemSink,
    error: MemSink,
    recheck: Recheck,
}

impl Answer {
    fn is(&self, status: u8, output: &str, error: &str) -> bool {
        self.status == status
            && self.output.written() == output.as_bytes()
            && self.error.written() == error.as_bytes()
    }
}

/// A program, its faults, and the rows of its feed.
pub fn files_of(alloc: Global, program: &str) -> Result<Seq<(Name, Text)>, AllocError>
    ensures { IfOk result HasDistinctNames }
{
    let mut files = Seq::new(alloc);
    put(alloc, &mut files, b"p.gp", program.as_bytes())?;
    put(alloc, &mut files, b"f.csv", FAULT.as_bytes())?;
    put(alloc, &mut files, b"r.csv", RATES.as_bytes())?;
    Ok(files)
}

// What a call by these words answers over a program, whose subthreads are walked under this recheck.
fn answer_under<R: Threads + Sync + AllocGlobal>(
    rt: &R,
    program: &str,
    words: &str,
    recheck: Recheck,
) -> Result<Box<Answer>, AllocError>
    requires twice { is_some recheck ≡ true }
    requires spared { IfSome recheck Spares }
{
    let alloc = rt.alloc();
    let is_log = words.starts_with("log");
    let words = words_of(alloc, words)?;
    let mut shelf = MemShelf::new(alloc, files_of(alloc, program)?, Seq::new(alloc));
    let mut output = MemSink::new(alloc, 1000, Seq::new(alloc));
    let mut error = MemSink::new(alloc, 1000, Seq::new(alloc));
    let (outcome, recheck) = if is_log {
        let outcome = log_told(
            rt,
            &words,
            &mut shelf,
            recheck,
            &mut output,
            &mut error,
            &FreeGate,
        );
        (outcome, Recheck::once())
    } else {
        run_told(
            rt,
            &words,
            &mut shelf,
            recheck,
            &mut output,
            &mut error,
            &FreeGate,
        )
    };
    drop(words);
    drop(shelf);
    let answer = Answer {
        status: outcome.status,
        output,
        error,
        recheck,
    };
    Ok(Box::new(alloc, answer)?)
}

// Fails unless a call by these words over a program, of which so many walks are disturbed so, answers this.
fn answers<R: Threads + Sync + AllocGlobal>(
    rt: &R,
    program: &str,
    words: &str,
    disturbed: (Disturbance, u64),
    status: u8,
    output: &str,
    error: &str,
) -> Result<(), Fail> {
    let recheck = Recheck::disturbing(rt.alloc(), disturbed.0, disturbed.1);
    let answer = answer_under(rt, program, words, recheck)?;
    if answer.is(status, output, error) {
        Ok(())
    } else {
        Err(Fail::from("the call answered something else"))
    }
}

#[test]
fn an_old_value_that_changed_is_told_by_the_sum(rt: HostRuntime) -> Result<(), Fail> {
    let lines = "gprs_twice: position 4 could not be agreed on\ngprs_twice: differed 1, last 4\n";
    answers(
        &rt,
        ADD,
        "run p.gp",
        (Disturbance::OldValue, 1),
        1,
        "output\n",
        lines,
    )
}

#[test]
fn a_changed_sum_of_cells_is_told_when_they_are_lent_again(rt: HostRuntime) -> Result<(), Fail> {
    let disturbed = (Disturbance::BundleSum, 1);
    let output = "output\n1\n";
    let line = "gprs_twice: data damaged at position 4\n";
    answers(&rt, KEPT, "run p.gp", disturbed, 1, output, line)?;
    answers(&rt, KEPT, "one p.gp", disturbed, 1, output, line)?;
    let line = "gprs_twice: data damaged at position 7\n";
    answers(&rt, ADD, "run p.gp", disturbed, 1, "output\n", line)
}

#[test]
fn a_changed_sum_of_registers_is_told_when_they_are_lent_again(
    rt: HostRuntime,
) -> Result<(), Fail> {
    let disturbed = (Disturbance::RegisterSum, 1);
    let line = "gprs_twice: data damaged at position 1\n";
    answers(&rt, KEPT, "run p.gp", disturbed, 1, "output\n", line)?;
    answers(&rt, KEPT, "one p.gp", disturbed, 1, "output\n", line)
}

#[test]
fn a_changed_sum_of_cells_is_told_at_the_end(rt: HostRuntime) -> Result<(), Fail> {
    let disturbed = (Disturbance::BundleSum, 1);
    let output = "output\n1\n";
    let line = "gprs_twice: data damaged at position 2\n";
    answers(&rt, WRITTEN, "run p.gp", disturbed, 1, output, line)
}

#[test]
fn a_changed_sum_of_feeds_is_told_where_a_row_is_read(rt: HostRuntime) -> Result<(), Fail> {
    let disturbed = (Disturbance::FeedSum, 1);
    let output = "output\n1\n";
    let line = "gprs_twice: data damaged at position 2\n";
    answers(&rt, FED, "run p.gp", disturbed, 1, output, line)?;
    answers(&rt, FED, "one p.gp", disturbed, 1, output, line)?;
    answers(&rt, "", "soak 4 1 --crew one", disturbed, 1, "", line)?;
    let line = "gprs_twice: data damaged at position 0\n";
    answers(&rt, COUNTED, "run p.gp", disturbed, 1, "output\n", line)
}

// A file that is read to something else once is read a third time; where that is so twice, no two readings agree.
#[test]
fn files_are_read_twice(rt: HostRuntime) -> Result<(), Fail> {
    let once = (Disturbance::Reading, 1);
    answers(&rt, FED, "run p.gp", once, 0, FED_TEXT, "")?;
    answers(&rt, FED, "one p.gp", once, 0, FED_TEXT, "")?;
    let twice = (Disturbance::Reading, 2);
    let line = "gprs: out of memory\n";
    answers(&rt, FED, "run p.gp", twice, 1, "", line)?;
    answers(&rt, FED, "log p.gp", twice, 1, "", line)
}

// A recheck that has the sums over a feed of ten cells, whose rows have two: a sum stands for eight cells.
fn kept(alloc: Global) -> Result<Recheck, AllocError> {
    let mut recheck = Recheck::twice(alloc);
    let cells = Nums::from_slice(alloc, &[5, 6, 7, 8, 0, 0, 0, 0, 9, 9])?;
    let mut feeds = Vec::new(alloc);
    feeds.push(Feed::new(2, cells))?;
    recheck.keep_feeds(alloc, &feeds)?;
    Ok(recheck)
}

// Whether row 1 of this feed, and its last row, are then as they were read.
fn as_read(alloc: Global, fields: u32, cells: &[i64; 10]) -> Result<(bool, bool), AllocError>
    requires some_field { 0 < fields }
    requires whole_rows { 10 % fields ≡ 0 }
{
    let recheck = kept(alloc)?;
    let feed = Feed::new(fields, Nums::from_slice(alloc, cells)?);
    let is_first = recheck.is_as_read(0, &feed, 1, 0);
    Ok((is_first, recheck.is_as_read(0, &feed, 4, 1)))
}

// A cell that changed, or two that changed places, are seen where one of the eight is read; rows that became shorter,
// wherever one is.
#[test]
fn a_feed_that_changed_is_seen_where_it_is_read(rt: HostRuntime) -> Result<(), Fail> {
    let alloc = rt.alloc();
    let is_right = as_read(alloc, 2, &[5, 6, 7, 8, 0, 0, 0, 0, 9, 9])? == (true, true)
        && as_read(alloc, 2, &[4, 6, 7, 8, 0, 0, 0, 0, 9, 9])? == (false, true)
        && as_read(alloc, 2, &[6, 5, 7, 8, 0, 0, 0, 0, 9, 9])? == (false, true)
        && as_read(alloc, 2, &[5, 6, 7, 8, 0, 0, 0, 0, 9, 13])? == (true, false)
        && as_read(alloc, 1, &[5, 6, 7, 8, 0, 0, 0, 0, 9, 9])? == (false, false);
    if is_right {
        Ok(())
    } else {
        Err(Fail::from("another feed is taken for it, or the same for another"))
    }
}

#[test]
fn memory_that_is_refused_is_no_difference(rt: HostRuntime) -> Result<(), Fail> {
    let line = "gprs: out of memory\n";
    for words in ["run p.gp", "one p.gp"] {
        let recheck = Recheck::disturbing(rt.alloc(), Disturbance::Refusal, 1);
        let answer = answer_under(&rt, ADD, words, recheck)?;
        if answer.recheck.differed() != 0 || !answer.is(1, "output\n", line) {
            return Err(Fail::from("a refusal is told otherwise"));
        }
    }
    Ok(())
}

// A text that is to be written is made twice: that of the lines of a position, what follows all lines, and the summary of a
// batch that the program makes.
#[test]
fn a_changed_text_is_told_before_it_is_written(rt: HostRuntime) -> Result<(), Fail> {
    let disturbed = (Disturbance::Text, 1);
    let line = "gprs_twice: data damaged at position 0\n";
    answers(&rt, KEPT, "run p.gp", disturbed, 1, "output\n", line)?;
    answers(&rt, KEPT, "one p.gp", disturbed, 1, "output\n", line)?;
    answers(&rt, KEPT, "log p.gp", disturbed, 1, "output\n", "")?;
    let line = "gprs_twice: data damaged at position 10\n";
    answers(&rt, ADD, "run p.gp", disturbed, 1, "output\n", line)?;
    answers(&rt, ADD, "one p.gp", disturbed, 1, "output\n", line)?;
    let line = "gprs_twice: data damaged at position 40\n";
    answers(&rt, "", "soak 4 1 --crew one", disturbed, 1, "", line)
}

// Walks that end the run are alike too, as are those of every other end.
#[test]
fn a_run_that_ends_otherwise_ends_as_it_is(rt: HostRuntime) -> Result<(), Fail> {
    let alike = (Disturbance::OldValue, 0);
    answers(&rt, NO_CELL, "run p.gp", alike, 5, NO_CELL_TEXT, "")?;
    answers(&rt, NO_CELL, "one p.gp", alike, 5, NO_CELL_TEXT, "")?;
    answers(
        &rt,
        ENDLESS,
        "run p.gp --turns 10",
        alike,
        6,
        ENDLESS_TEXT,
        "",
    )?;
    answers(
        &rt,
        ENDLESS,
        "one p.gp --turns 10",
        alike,
        6,
        ENDLESS_TEXT,
        "",
    )
}

#[test]
fn no_difference_is_told_where_nothing_is_disturbed(rt: HostRuntime) -> Result<(), Fail> {
    for crew in &CREWS {
        let words = format!(in rt.alloc(); "run p.gp --faults f.csv --workers 2 --crew {crew}")?;
        for program in [ADD, FED, COUNTED] {
            let answer = answer_under(&rt, program, &words, Recheck::twice(rt.alloc()))?;
            let is_told = answer.recheck.differed() > 0 || answer.recheck.has_stopped();
            if is_told || answer.status != 0 || !answer.error.written().is_empty() {
                return Err(Fail::from("a difference is told, or another status"));
            }
        }
    }
    Ok(())
}
