// The call that goes on from a log: worked examples, logs that are refused, and runs that were stopped. The texts were
// reckoned by hand from the rules of the order.

use crate::log::{ADD_LOG, MEETING, MET, MET_LOG, first_of};
use batch_fixtures::programs::{ADD, ADDED, USAGE};
use call_fixtures::answers::{Answer, answer_of, answer_through, give, gives, text_of};
use call_fixtures::cases::{Call, Case, Devices, RUN, SOUND};
use call_fixtures::entries::{agrees, gate_over};
use std::alloc::AllocError;
use std::test::Fail;
use std::thread::Threads;

// The first rows of the log of `ADD`, and what its run still writes after them.
const FIRST_FIVE: &str =
    "0 7 ; 0 ; ;\n1 7 ; 0 ; 0 0 ;\n2 7 ; 0 0 ; ;\n3 7 ; 0 ; 0 0 ;\n4 7 ; 0 0 ; ; 0 3\n";

const REST: &str =
    "records\ntotal: 7\nrestarts\ncounts\nsubthreads 11\nrestarts 0\nredone 0\nunused 0\n";

// The run of `ADD` goes on from a log.
const RESUME: Case<'static> = Case {
    call: Call::Resume,
    words: "resume p.gp t.txt",
    program: ADD,
    ..RUN
};

// A row that was not written to its end counts for nothing.
static GOES_ON: [Case<'static>; 5] = [
    Case {
        trace: FIRST_FIVE,
        output: REST,
        ..RESUME
    },
    Case {
        trace: ADD_LOG,
        output: REST,
        ..RESUME
    },
    Case {
        trace: "",
        output: ADDED,
        ..RESUME
    },
    Case {
        trace: "x",
        output: ADDED,
        ..RESUME
    },
    Case {
        trace: "0 7 ; 0 ; ;",
        output: ADDED,
        ..RESUME
    },
];

// The log that begins so and has this more goes on so.
fn goes_on_from<R: Threads + Sync + AllocGlobal>(
    rt: &R,
    log: &str,
    more: &str,
    case: &Case<'_>,
) -> Result<bool, AllocError> {
    let trace = format!(in rt.alloc(); "{log}{more}")?;
    let is_told = gives(
        rt,
        &Case {
            trace: trace.as_str(),
            ..*case
        },
    );
    drop(trace);
    is_told
}

static RESTS: Case<'static> = Case {
    output: REST,
    ..RESUME
};

#[test]
fn goes_on_from_rows(rt: HostRuntime) -> Result<(), Fail> {
    assert!(rt; give(&rt, &GOES_ON)? && goes_on_from(&rt, FIRST_FIVE, "5 7 ; 0", &RESTS)?);
    Ok(())
}

// Another form.
const FORM: Case<'static> = Case {
    status: 4,
    error: "gprs: input t.txt kind 7 row 1\n",
    ..RESUME
};

// Rows that do not fit.
const FIT: Case<'static> = Case {
    status: 4,
    error: "gprs: input t.txt kind 8 row 1\n",
    ..RESUME
};

// Another form, and then rows that do not fit: a later position, a register more, a child without a fork, a cell
// without its lock, the bytes. The first row that is refused is told.
static REFUSED_LOGS: [Case<'static>; 19] = [
    Case {
        trace: "x\n",
        ..FORM
    },
    Case {
        trace: "\n",
        ..FORM
    },
    Case {
        trace: "00 7 ; 0 ; ;\n",
        ..FORM
    },
    Case {
        trace: "-0 7 ; 0 ; ;\n",
        ..FORM
    },
    Case {
        trace: "0 7 ; +0 ; ;\n",
        ..FORM
    },
    Case {
        trace: "0  7 ; 0 ; ;\n",
        ..FORM
    },
    Case {
        trace: "0 7 ; 0 ; ; \n",
        ..FORM
    },
    Case {
        trace: "0 7 ; 0 ;\n",
        ..FORM
    },
    Case {
        trace: "0 7 ; 0 ; ; 1\n",
        ..FORM
    },
    Case {
        trace: "0 7 ; 9223372036854775808 ; ;\n",
        ..FORM
    },
    Case {
        trace: "0 7 ; 0 ; ;\nx\n",
        error: "gprs: input t.txt kind 7 row 2\n",
        ..FORM
    },
    Case {
        trace: "0 7 ; 0 0 ; ;\nx\n",
        ..FIT
    },
    Case {
        trace: "4 7 ; 0 0 ; ; 0 3\n",
        ..FIT
    },
    Case {
        trace: "-1 7 ; 0 ; ;\n",
        ..FIT
    },
    Case {
        trace: "0 7 ; ; ;\n",
        ..FIT
    },
    Case {
        trace: "0 7 ; 0 ; 0 ;\n",
        ..FIT
    },
    Case {
        trace: "0 7 ; 0 ; ; 0 3\n",
        ..FIT
    },
    Case {
        trace: "0 6 ; 0 ; ;\n",
        ..FIT
    },
    Case {
        trace: "0 9 ; 0 ; ;\n1 8 ; 0 ; 0 0 ;\n",
        error: "gprs: input t.txt kind 8 row 2\n",
        ..FIT
    },
];

// After the log of the whole run, a position after the end.
static BEHIND: Case<'static> = Case {
    error: "gprs: input t.txt kind 8 row 12\n",
    ..FIT
};

#[test]
fn logs_that_are_refused(rt: HostRuntime) -> Result<(), Fail> {
    assert!(rt;
        give(&rt, &REFUSED_LOGS)? && goes_on_from(&rt, ADD_LOG, "11 7 ; 0 ; ;\n", &BEHIND)?
    );
    Ok(())
}

// The log is read last.
const REFUSED: Case<'static> = Case {
    trace: "x",
    status: 2,
    error: USAGE,
    ..RESUME
};

static REFUSALS: [Case<'static>; 9] = [
    Case {
        words: "resume p.gp",
        ..REFUSED
    },
    Case {
        words: "resume p.gp t.txt t.txt",
        ..REFUSED
    },
    Case {
        words: "resume p.gp t.txt --crew one",
        ..REFUSED
    },
    Case {
        words: "resume p.gp t.txt --faults f.csv",
        ..REFUSED
    },
    Case {
        words: "resume p.gp t.txt --subthreads 0",
        ..REFUSED
    },
    Case {
        words: "run p.gp t.txt",
        ..REFUSED
    },
    Case {
        words: "resume g.gp t.txt",
        status: 7,
        error: "gprs: read fault g.gp\n",
        ..REFUSED
    },
    Case {
        words: "resume t.txt p.gp",
        status: 3,
        error: "gprs: parse 1 at byte 0\n",
        ..REFUSED
    },
    Case {
        words: "resume p.gp g.txt",
        status: 7,
        error: "gprs: read fault g.txt\n",
        ..REFUSED
    },
];

#[test]
fn words_and_files_that_are_refused(rt: HostRuntime) -> Result<(), Fail> {
    assert!(rt; give(&rt, &REFUSALS)?);
    Ok(())
}

static MEETS: Case<'static> = Case {
    program: MEETING,
    ..RESUME
};

// The case goes on from so many rows with this text.
fn writes_rest<R: Threads + Sync + AllocGlobal>(
    rt: &R,
    case: &Case<'_>,
    rows: usize,
    pieces: &[&str],
) -> Result<bool, AllocError> {
    let log = first_of(rt.alloc(), &MET_LOG, rows)?;
    let rest = first_of(rt.alloc(), pieces, 6)?;
    let is_told = gives(
        rt,
        &Case {
            trace: log.as_str(),
            output: rest.as_str(),
            ..*case
        },
    );
    drop(rest);
    drop(log);
    is_told
}

// The run of `MEETING`, stopped after any of its rows, goes on with the pieces of the text that were not written.
fn writes_each_rest<R: Threads + Sync + AllocGlobal>(rt: &R) -> Result<bool, AllocError> {
    for rows in 0usize..6 {
        if !writes_rest(rt, &MEETS, rows, &MET[rows..])? {
            return Ok(false);
        }
    }
    Ok(true)
}

#[test]
fn what_was_not_written_is_written(rt: HostRuntime) -> Result<(), Fail> {
    assert!(rt; writes_each_rest(&rt)?);
    Ok(())
}

// The run of `ADD` that a fault strikes.
static STRUCK: Case<'static> = Case {
    call: Call::Log,
    words: "log p.gp --faults f.csv --crew one",
    program: ADD,
    faults: "4,0,3,1\n",
    ..RUN
};

static RESUMED: Case<'static> = Case {
    faults: "4,0,3,1\n",
    ..RESUME
};

// What goes on from the log of this run comes to.
fn resumed<R: Threads + Sync + AllocGlobal>(
    rt: &R,
    stopped: &Answer,
) -> Result<Box<Answer>, AllocError> {
    let case = Case {
        trace: text_of(stopped.error.written()),
        ..RESUMED
    };
    answer_of(rt, &case)
}

// The run of `ADD` that a fault strikes, whose output fails at this call, is stopped by that, and what it wrote and
// what goes on from its log is the text of one thread.
fn is_joined<R: Threads + Sync + AllocGlobal>(rt: &R, fails: u64) -> Result<bool, AllocError> {
    let devices = Devices {
        output: fails,
        ..SOUND
    };
    let stopped = answer_of(rt, &Case { devices, ..STRUCK })?;
    let answer = resumed(rt, &stopped)?;
    let rest = ADDED.as_bytes().strip_prefix(stopped.output.written());
    Ok(stopped.status == 8 && answer.status == 0 && rest == Some(answer.output.written()))
}

#[test]
fn a_run_that_was_stopped(rt: HostRuntime) -> Result<(), Fail> {
    assert!(rt; is_joined(&rt, 1)? && is_joined(&rt, 2)?);
    Ok(())
}

const FAILING: Case<'static> = Case {
    devices: Devices { output: 1, ..SOUND },
    status: 8,
    error: "gprs: write fault\n",
    ..RESUME
};

static UNWRITTEN: [Case<'static>; 2] = [
    FAILING,
    Case {
        trace: FIRST_FIVE,
        ..FAILING
    },
];

#[test]
fn an_output_that_fails(rt: HostRuntime) -> Result<(), Fail> {
    assert!(rt; give(&rt, &UNWRITTEN)?);
    Ok(())
}

static LOGGED: Case<'static> = Case {
    trace: FIRST_FIVE,
    ..RESUME
};

// No task of a position that the log has enters the gate, and each other one once.
fn enters_behind_log<R: Threads + Sync + AllocGlobal>(rt: &R) -> Result<bool, AllocError> {
    let gate = gate_over(rt.alloc(), 11)?;
    let answer = answer_through(rt, &LOGGED, &gate)?;
    Ok(answer.status == 0 && agrees(&gate, &[0, 0, 0, 0, 0, 1, 1, 1, 1, 1, 1], 6))
}

#[test]
fn positions_of_the_log_are_not_run(rt: HostRuntime) -> Result<(), Fail> {
    assert!(rt; enters_behind_log(&rt)?);
    Ok(())
}
