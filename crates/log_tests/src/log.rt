// The call that keeps a log of its run: worked examples, whoever carries them out, and devices that fail. The rows were
// reckoned by hand from the rules of the order.

use batch_fixtures::programs::{ADD, ADDED, USAGE};
use call_fixtures::answers::{Answer, answer_over_batch, give, gives, gives_by};
use call_fixtures::cases::{Call, Case, Devices, RUN, SOUND};
use call_fixtures::entries::enter_as_posted;
use std::alloc::{AllocError, Global};
use std::test::Fail;
use std::thread::Threads;

// The crews of a run with a log, in the words that name them.
static CREWS: [&str; 7] = [
    " --crew one",
    " --crew wave --workers 1",
    " --crew wave --workers 2",
    " --crew wave --workers 64",
    " --crew board --workers 1",
    " --crew board --workers 2",
    " --crew board --workers 64",
];

/// Position 1 forks the thread that adds 3, and position 3 that which adds 4; they add at 4 and at 7.
pub const ADD_LOG: &str =
    "0 7 ; 0 ; ;\n1 7 ; 0 ; 0 0 ;\n2 7 ; 0 0 ; ;\n3 7 ; 0 ; 0 0 ;\n4 7 ; 0 0 ; ; 0 3\n5 7 ; 0 0 ; ;\n6 7 ; 0 0 ; ;\n7 7 ; 0 3 ; ; 0 7\n8 7 ; 0 ; ;\n9 7 ; 0 3 ; ;\n10 7 ; 0 ; ;\n";

// What the run of `ADD` writes where a fault strikes position 4.
const STRUCK: &str =
    "output\nrecords\ntotal: 7\nrestarts\n1: front 8 struck 4 try 0 redo 4 6 7\ncounts\nsubthreads 11\nrestarts 1\nredone 3\nunused 0\n";

/// Each position but the first prints a line.
pub const MEETING: &str = "barrier meet(2);
task t() { print 1; barrier meet; print 2; }
task main() { fork t(); print 3; barrier meet; print 4; }
";

/// What its run writes, and the rows of its log.
pub static MET: [&str; 6] = [
    "output\n",
    "3\n",
    "1\n",
    "2\n",
    "4\n",
    "records\nrestarts\ncounts\nsubthreads 5\nrestarts 0\nredone 0\nunused 0\n",
];

pub static MET_LOG: [&str; 5] = [
    "0 7 ; 0 ; ;\n",
    "1 9 ; 0 ; 0 ;\n",
    "2 11 ; 0 ; ;\n",
    "3 13 ; 0 ; ;\n",
    "4 15 ; 0 ; ;\n",
];

// The index of the lock is outside.
const OUTSIDE: &str = "lock bank[4];
record acct[4] by bank;
task main() {
  var i;
  i = 4;
  lock bank[i];
  write acct[i] = 1;
  unlock bank[i];
}
";

const STUCK: &str =
    "output\nstuck index thread 0 line 6\nrestarts\ncounts\nsubthreads 1\nrestarts 0\nredone 0\nunused 0\n";

/// The first of these pieces, as one text.
pub fn first_of(alloc: Global, pieces: &[&str], count: usize) -> Result<String, AllocError> {
    let mut text = String::new(alloc);
    for piece in pieces.iter().take(count) {
        text.push_str(piece)?;
    }
    Ok(text)
}

// The run of the two threads with a log.
const LOG: Case<'static> = Case {
    call: Call::Log,
    words: "log p.gp",
    program: ADD,
    output: ADDED,
    error: ADD_LOG,
    ..RUN
};

static LOGGED: Case<'static> = LOG;

// The run of two threads that meet.
static MEETS: Case<'static> = Case {
    program: MEETING,
    ..LOG
};

// The case writes so many pieces of the text of `MEETING` and rows of its log.
fn writes<R: Threads + Sync + AllocGlobal>(
    rt: &R,
    case: &Case<'_>,
    pieces: usize,
    rows: usize,
) -> Result<bool, AllocError> {
    let output = first_of(rt.alloc(), &MET, pieces)?;
    let log = first_of(rt.alloc(), &MET_LOG, rows)?;
    let is_told = gives(
        rt,
        &Case {
            output: output.as_str(),
            error: log.as_str(),
            ..*case
        },
    );
    drop(log);
    drop(output);
    is_told
}

// The run of `MEETING` over these devices is stopped by a write, and wrote so many pieces of its text and rows of its
// log.
fn is_stopped<R: Threads + Sync + AllocGlobal>(
    rt: &R,
    devices: Devices,
    pieces: usize,
    rows: usize,
) -> Result<bool, AllocError> {
    let case = Case {
        devices,
        status: 8,
        ..MEETS
    };
    writes(rt, &case, pieces, rows)
}

// The run of a program whose lock is outside writes the row of the position where it is stuck.
static STOPPED: Case<'static> = Case {
    program: OUTSIDE,
    status: 5,
    output: STUCK,
    error: "0 7 ; 0 ; ;\n",
    ..LOG
};

#[test]
fn rows_as_they_are_written(rt: HostRuntime) -> Result<(), Fail> {
    assert!(rt;
        gives_by(&rt, &LOGGED, &CREWS)? && writes(&rt, &MEETS, 6, 5)? && gives(&rt, &STOPPED)?
    );
    Ok(())
}

static STRUCK_LOGGED: Case<'static> = STRUCK_LOG;

const STRUCK_LOG: Case<'static> = Case {
    words: "log p.gp --faults f.csv",
    faults: "4,0,3,1\n",
    output: STRUCK,
    ..LOG
};

#[test]
fn a_fault_leaves_no_damage_in_the_log(rt: HostRuntime) -> Result<(), Fail> {
    assert!(rt; gives_by(&rt, &STRUCK_LOGGED, &CREWS)?);
    Ok(())
}

const NO_COMMAND: Case<'static> = Case {
    words: "",
    status: 2,
    output: "",
    error: USAGE,
    ..LOG
};

static NO_COMMANDS: [Case<'static>; 7] = [
    NO_COMMAND,
    Case {
        words: "log",
        ..NO_COMMAND
    },
    Case {
        words: "run p.gp",
        ..NO_COMMAND
    },
    Case {
        words: "log p.gp --trace",
        ..NO_COMMAND
    },
    Case {
        words: "log p.gp --every 4",
        ..NO_COMMAND
    },
    Case {
        words: "log p.gp --crew steal",
        ..NO_COMMAND
    },
    Case {
        words: "log p.gp --crew pipe",
        ..NO_COMMAND
    },
];

#[test]
fn words_of_no_command(rt: HostRuntime) -> Result<(), Fail> {
    assert!(rt; give(&rt, &NO_COMMANDS)?);
    Ok(())
}

// The line that tells a fault stands on the error stream only where no run began.
static UNREAD: Case<'static> = Case {
    devices: Devices { read: 1, ..SOUND },
    status: 7,
    output: "",
    error: "gprs: read fault p.gp\n",
    ..LOG
};

#[test]
fn a_program_that_is_not_read(rt: HostRuntime) -> Result<(), Fail> {
    assert!(rt; gives(&rt, &UNREAD)?);
    Ok(())
}

// Each piece of the text is one call of the output. Where one fails, the log has the rows of the positions before it,
// and no line of that.
fn stops_at_each_piece<R: Threads + Sync + AllocGlobal>(rt: &R) -> Result<bool, AllocError> {
    for pieces in 0usize..6 {
        let failing = Devices {
            output: pieces as u64 + 1,
            ..SOUND
        };
        if !is_stopped(rt, failing, pieces, pieces)? {
            return Ok(false);
        }
    }
    Ok(true)
}

#[test]
fn an_output_that_fails(rt: HostRuntime) -> Result<(), Fail> {
    assert!(rt; stops_at_each_piece(&rt)?);
    Ok(())
}

// Where a row is not taken, the lines of its position are written, and nothing after them.
fn stops_at_each_row<R: Threads + Sync + AllocGlobal>(rt: &R) -> Result<bool, AllocError> {
    for rows in 0usize..5 {
        let failing = Devices {
            error: rows as u64 + 1,
            ..SOUND
        };
        if !is_stopped(rt, failing, rows + 1, rows)? {
            return Ok(false);
        }
    }
    Ok(true)
}

#[test]
fn a_log_that_fails(rt: HostRuntime) -> Result<(), Fail> {
    assert!(rt; stops_at_each_row(&rt)?);
    Ok(())
}

// The run of the batch of transfers by these words writes this log.
fn log_of_batch<R: Threads + Sync + AllocGlobal>(
    rt: &R,
    words: &str,
) -> Result<Box<Answer>, AllocError> {
    answer_over_batch(rt, &Case { words, ..LOGGED })
}

// The run by these words has this log.
fn has_log<R: Threads + Sync + AllocGlobal>(
    rt: &R,
    words: &str,
    plain: &Answer,
) -> Result<bool, AllocError> {
    let struck = log_of_batch(rt, words)?;
    Ok(struck.status == 0 && struck.error.written() == plain.error.written())
}

// How many rows are in the log.
fn rows_of(plain: &Answer) -> usize {
    plain
        .error
        .written()
        .iter()
        .filter(|byte| **byte == b'\n')
        .count()
}

static STRUCK_BATCHES: [&str; 3] = [
    "log soak.gp --faults faults.csv --crew one",
    "log soak.gp --faults faults.csv --crew wave --workers 64",
    "log soak.gp --faults faults.csv --crew board --workers 64",
];

// The run of the batch with its 40 faults has the log of the run without them, which has a row for each subthread.
fn keeps_log<R: Threads + Sync + AllocGlobal>(rt: &R) -> Result<bool, AllocError> {
    let plain = log_of_batch(rt, "log soak.gp --crew one")?;
    for words in &STRUCK_BATCHES {
        if !has_log(rt, words, &plain)? {
            return Ok(false);
        }
    }
    Ok(plain.status == 0 && rows_of(&plain) == 8025)
}

#[test]
fn a_batch_that_faults_strike_keeps_its_log(rt: HostRuntime) -> Result<(), Fail> {
    assert!(rt; keeps_log(&rt)?);
    Ok(())
}

// The crews of one and two workers.
static PAIRS: [&str; 3] = [
    " --crew one",
    " --crew wave --workers 2",
    " --crew board --workers 2",
];

static ENTERED: [Case<'static>; 2] = [
    Case {
        faults: "4,0,3,1\n",
        ..LOG
    },
    STRUCK_LOG,
];

#[test]
fn tasks_enter_the_gate_as_they_are_posted(rt: HostRuntime) -> Result<(), Fail> {
    assert!(rt; enter_as_posted(&rt, &ENTERED, &PAIRS, 11)?);
    Ok(())
}
