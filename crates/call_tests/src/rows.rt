// Worked examples, with the bytes that they write as a whole, and the limits of a run.

use batch_fixtures::programs::{ADD, ADDED};
use call_fixtures::answers::{Answer, answer_over_batch, front_of, give, gives, gives_by, text_of};
use call_fixtures::cases::{Case, PLAIN, RUN};
use call_fixtures::crews::CREWS;
use gp_base::limits::{
    DEEPEST_NESTING, DEFAULT_SUBTHREADS, DEFAULT_TURNS, DEFAULT_WORKERS, LEAST_MOVES,
    LONGEST_DELAY, MOST_CELLS, MOST_FAULTS, MOST_FEED_CELLS, MOST_FIELDS, MOST_FILE_BYTES,
    MOST_MOVES, MOST_PROGRAM_BYTES, MOST_SUBTHREADS, MOST_THREADS, MOST_TURNS, MOST_VARIABLES,
    MOST_WORKERS,
};
use std::alloc::AllocError;
use std::test::Fail;
use std::thread::Threads;

// The index of a lock that is held changes.
const CHANGED: &str = "lock bank[2];
record acct[2] by bank;
task main() {
  var i;
  lock bank[i];
  i = 1;
  write acct[i] = 5;
  unlock bank[i];
}
";

// An equal value under another index is not the lock that is held.
const OTHER: &str = "lock bank[2];
record acct[2] by bank;
task main() {
  var i;
  lock bank[i];
  write acct[0] = 5;
  unlock bank[i];
}
";

const OUTSIDE: &str = "lock bank[100];
record acct[100] by bank;
task main() {
  var i;
  i = 100;
  lock bank[i];
  write acct[i] = 1;
  unlock bank[i];
}
";

const LAST: &str = "lock bank[100];
record acct[100] by bank;
task main() {
  var i;
  i = 99;
  lock bank[i];
  write acct[i] = 1;
  unlock bank[i];
}
";

const STUCK: &str =
    "output\nstuck index thread 0 line 6\nrestarts\ncounts\nsubthreads 1\nrestarts 0\nredone 0\nunused 0\n";

static AS_WRITTEN: [Case<'static>; 5] = [
    Case {
        program: CHANGED,
        status: 3,
        error: "gprs: check 9 at line 6\n",
        ..RUN
    },
    Case {
        program: OTHER,
        status: 3,
        error: "gprs: check 5 at line 6\n",
        ..RUN
    },
    Case {
        program: OUTSIDE,
        status: 5,
        output: STUCK,
        ..RUN
    },
    Case {
        words: "one p.gp",
        ..ADDS
    },
    ADDS,
];

const ADDS: Case<'static> = Case {
    program: ADD,
    output: ADDED,
    ..RUN
};

static ADDED_BY: Case<'static> = ADDS;

// The last of a hundred records is written.
fn writes_last<R: Threads + Sync + AllocGlobal>(rt: &R) -> Result<bool, AllocError> {
    let zeros = " 0".repeat(rt.alloc(), 99)?;
    let last = format!(in rt.alloc();
        "output\nrecords\nacct:{zeros} 1\nrestarts\ncounts\nsubthreads 3\nrestarts 0\nredone 0\nunused 0\n"
    )?;
    let is_told = gives(
        rt,
        &Case {
            program: LAST,
            output: last.as_str(),
            ..PLAIN
        },
    );
    drop(last);
    drop(zeros);
    is_told
}

#[test]
fn rows_as_they_are_written(rt: HostRuntime) -> Result<(), Fail> {
    assert!(rt; give(&rt, &AS_WRITTEN)? && writes_last(&rt)? && gives_by(&rt, &ADDED_BY, &CREWS)?);
    Ok(())
}

// The call ended well, with this after the line of the restarts, where its own count and no line of a restart stand.
fn ends_with(answer: &Answer, counts: &str) -> bool {
    answer.status == 0
        && answer.error.written().is_empty()
        && text_of(answer.output.written()).ends_with(counts)
}

// The run of the batch with its 40 faults, by these words, and that on one thread have the same lines and records.
fn keeps_records<R: Threads + Sync + AllocGlobal>(rt: &R, words: &str) -> Result<bool, AllocError> {
    let ran = answer_over_batch(rt, &Case { words, ..PLAIN })?;
    let plain = answer_over_batch(
        rt,
        &Case {
            words: "one soak.gp",
            ..PLAIN
        },
    )?;
    let counts = "counts\nsubthreads 8025\nrestarts 40\nredone 240\nunused 0\n";
    let plain_counts = "restarts\ncounts\nsubthreads 8025\nrestarts 0\nredone 0\nunused 0\n";
    Ok(
        ends_with(&ran, counts)
            && ends_with(&plain, plain_counts)
            && front_of(&ran).starts_with("output\n")
            && front_of(&ran) == front_of(&plain),
    )
}

// The restarts were counted by a reckoning of the order and of the rules of dependence alone.
static STRUCK_BATCHES: [&str; 5] = [
    "run soak.gp --faults faults.csv --crew one",
    "run soak.gp --faults faults.csv --crew wave --workers 1",
    "run soak.gp --faults faults.csv --crew wave --workers 64",
    "run soak.gp --faults faults.csv --crew board --workers 64",
    "run soak.gp --faults faults.csv --crew steal --workers 64",
];

// The run by each of these words keeps the lines and the records.
fn keep_records<R: Threads + Sync + AllocGlobal>(
    rt: &R,
    rows: &[&str],
) -> Result<bool, AllocError> {
    for words in rows {
        if !keeps_records(rt, words)? {
            return Ok(false);
        }
    }
    Ok(true)
}

#[test]
fn a_batch_that_faults_strike_keeps_its_records(rt: HostRuntime) -> Result<(), Fail> {
    assert!(rt; keep_records(&rt, &STRUCK_BATCHES)?);
    Ok(())
}

// Definitions cite these numbers from the code.
static LIMITS: [(u64, u64); 18] = [
    (MOST_PROGRAM_BYTES as u64, 1048576),
    (MOST_FILE_BYTES as u64, 33554432),
    (DEEPEST_NESTING as u64, 64),
    (MOST_CELLS as u64, 65536),
    (MOST_FEED_CELLS as u64, 1000000),
    (MOST_FIELDS as u64, 64),
    (MOST_VARIABLES as u64, 256),
    (MOST_THREADS as u64, 4096),
    (MOST_FAULTS as u64, 1000),
    (LONGEST_DELAY as u64, 64),
    (MOST_SUBTHREADS as u64, 200000),
    (DEFAULT_SUBTHREADS as u64, 100000),
    (MOST_TURNS, 10000000),
    (DEFAULT_TURNS, 1000000),
    (MOST_WORKERS as u64, 64),
    (DEFAULT_WORKERS as u64, 4),
    (LEAST_MOVES as u64, 4),
    (MOST_MOVES as u64, 20000),
];

// Whether each limit is the number beside it.
fn are_as_written(limits: &[(u64, u64)]) -> bool {
    for (limit, written) in limits {
        if limit != written {
            return false;
        }
    }
    true
}

#[test]
fn limits_are_as_written(rt: HostRuntime) {
    assert!(rt; are_as_written(&LIMITS));
}
