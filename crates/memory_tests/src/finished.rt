// What a batch over files in memory comes to: its text is read, with restarts in it and without, and other ends are told.

use batch_fixtures::files::{put, words_of};
use gp_base::{Name, Nums, Seq, Text};
use memory_batch::{Finished, Unfinished, finish};
use std::alloc::{AllocError, Global};
use std::test::Fail;
use std::thread::Threads;

// Two threads add to a cell of a record that comes from a file, and write another; a third record is not kept.
const ADDING: &[u8] = b"lock l[2];
record cash[2] by l from \"cash.csv\";
record kept[2] by l;
feed f[1] from \"f.csv\";
record owed[2] by l from \"owed.csv\";
task add(n) {
  var $t;
  lock l[1];
  read cash[1] into $t;
  write cash[1] = $t + n;
  write owed[1] = 0 - $t;
  write kept[1] = 1;
  unlock l[1];
  print n, 0 - n;
}
task main() {
  print f[0, 0];
  fork add(3);
  fork add(4);
  join 1;
  join 2;
}
";

// It waits for a lock that is not there.
const STUCK: &[u8] = b"lock l[1]; task main() { lock l[7]; unlock l[7]; }";

type Files = Seq<(Name, Text)>;

fn own_files(alloc: Global, program: &[u8], faults: &[u8]) -> Result<Files, AllocError> {
    let mut files = Seq::new(alloc);
    put(alloc, &mut files, b"p.gp", program)?;
    put(alloc, &mut files, b"faults.csv", faults)?;
    Ok(files)
}

fn tables(alloc: Global, cash: &[u8]) -> Result<Files, AllocError> {
    let mut files = Seq::new(alloc);
    put(alloc, &mut files, b"cash.csv", cash)?;
    put(alloc, &mut files, b"f.csv", b"5\n")?;
    put(alloc, &mut files, b"owed.csv", b"")?;
    Ok(files)
}

// What a run of this program with these faults comes to, over a table of these cells.
fn run<R: Threads + Sync + AllocGlobal>(
    rt: &R,
    program: &[u8],
    faults: &[u8],
    cash: &[u8],
) -> Result<Result<Finished, Unfinished>, AllocError> {
    let alloc = rt.alloc();
    let words = words_of(alloc, "run p.gp --faults faults.csv --workers 1")?;
    let own = own_files(alloc, program, faults)?;
    let tables = tables(alloc, cash)?;
    Ok(finish(rt, &words, own.as_slice(), tables.as_slice()))
}

// Whether these are the numbers, list by list.
fn are(found: &Seq<Nums>, wanted: &[&[i64]]) -> bool {
    found.len() == wanted.len()
        && found
            .as_slice()
            .iter()
            .zip(wanted)
            .all(|(own, other)| own.as_slice() == *other)
}

// Fails unless the two threads were run so, and the text ends with these counts.
fn comes_to_sums<R: Threads + Sync + AllocGlobal>(
    rt: &R,
    faults: &[u8],
    counts: &[u8],
) -> Result<(), Fail> {
    let Ok(finished) = run(rt, ADDING, faults, b"1,10\n")? else {
        return Err(Fail::from("the run came to nothing"));
    };
    if !are(&finished.lines, &[&[5], &[3, -3], &[4, -4]]) {
        return Err(Fail::from("other lines were read"));
    }
    if !are(&finished.cells, &[&[0, 17], &[], &[0, -13]]) {
        return Err(Fail::from("other cells were read"));
    }
    if !finished.text.as_slice().ends_with(counts) {
        return Err(Fail::from("the text ends with other counts"));
    }
    Ok(())
}

#[test]
fn a_run_without_faults_is_read(rt: HostRuntime) -> Result<(), Fail> {
    let counts = b"counts\nsubthreads 11\nrestarts 0\nredone 0\nunused 0\n";
    comes_to_sums(&rt, b"", counts)
}

#[test]
fn a_run_with_restarts_is_read(rt: HostRuntime) -> Result<(), Fail> {
    let counts = b"counts\nsubthreads 11\nrestarts 1\nredone 3\nunused 1\n";
    comes_to_sums(&rt, b"4,0,3,1\n90,0,0,1\n", counts)
}

// Fails unless a run ends with this status, and this text stands on its error stream.
fn ends_so<R: Threads + Sync + AllocGlobal>(
    rt: &R,
    program: &[u8],
    cash: &[u8],
    status: u8,
    told: &[u8],
) -> Result<(), Fail> {
    let Err(unfinished) = run(rt, program, b"", cash)? else {
        return Err(Fail::from("the run finished"));
    };
    let Unfinished::Ended(ended) = unfinished else {
        return Err(Fail::from("the run came to nothing"));
    };
    if ended.status == status && ended.told.as_slice() == told {
        Ok(())
    } else {
        Err(Fail::from("the run ended otherwise"))
    }
}

#[test]
fn other_ends_are_told(rt: HostRuntime) -> Result<(), Fail> {
    ends_so(&rt, STUCK, b"", 5, b"")?;
    ends_so(
        &rt,
        b"task main() { i = ; }",
        b"",
        3,
        b"gprs: parse 1 at byte 18\n",
    )?;
    ends_so(
        &rt,
        ADDING,
        b"1,\"\"\n",
        4,
        b"gprs: input cash.csv kind 2 row 1\n",
    )
}

#[test]
fn two_files_of_one_name_are_refused(rt: HostRuntime) -> Result<(), Fail> {
    let alloc = rt.alloc();
    let words = words_of(alloc, "run p.gp")?;
    let own = own_files(alloc, STUCK, b"")?;
    match finish(&rt, &words, own.as_slice(), own.as_slice()) {
        Err(Unfinished::SameNames) => Ok(()),
        _ => Err(Fail::from("two files of one name were taken")),
    }
}
