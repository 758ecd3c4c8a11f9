// Hostile use: texts that are cut off, devices that fail at each of their calls, files that are refused, and schedules.
// The fault strikes the first of the two threads that add to one total.

use batch_fixtures::programs::{ADD, EMPTY, PRINTS, USAGE};
use call_fixtures::answers::{answer_of, answer_over_batch, give, gives, tells, text_of};
use call_fixtures::cases::{Case, Devices, PLAIN, RUN, SOUND};
use gp_base::MemSink;
use std::alloc::{AllocError, Global};
use std::test::Fail;
use std::thread::Threads;

const EMPTY_TEXT: &str =
    "output\nrecords\nrestarts\ncounts\nsubthreads 1\nrestarts 0\nredone 0\nunused 0\n";

const PRINTS_TEXT: &str =
    "output\n7\n42\nrecords\nrestarts\ncounts\nsubthreads 1\nrestarts 0\nredone 0\nunused 0\n";

const STRUCK_TEXT: &str =
    "output\nrecords\ntotal: 7\nrestarts\n1: front 8 struck 4 try 0 redo 4 6 7\ncounts\nsubthreads 11\nrestarts 1\nredone 3\nunused 0\n";

// The struck run, with its trace.
const STRUCK: Case<'static> = Case {
    words: "run p.gp --faults f.csv --crew one --trace",
    program: ADD,
    faults: "4,0,3,1\n",
    output: STRUCK_TEXT,
    ..RUN
};

const WRITE_FAULT: &str = "gprs: write fault\n";

// How many bytes a sink takes at once.
const MOST: [usize; 3] = [1, 4, 1000];

static STRUCK_RUN: Case<'static> = STRUCK;

// The program is refused, and nothing is written to the output.
fn refuses_text<R: Threads + Sync + AllocGlobal>(
    rt: &R,
    program: &[u8],
) -> Result<bool, AllocError> {
    let case = Case {
        program: text_of(program),
        ..PLAIN
    };
    let answer = answer_of(rt, &case)?;
    Ok(answer.status == 3 && answer.output.written().is_empty())
}

// A text that is cut off is refused.
fn refuses_beginnings<R: Threads + Sync + AllocGlobal>(
    rt: &R,
    whole: &[u8],
) -> Result<bool, AllocError> {
    for end in 0..whole.len() {
        let (front, _) = whole.split_at(end);
        if !refuses_text(rt, front)? {
            return Ok(false);
        }
    }
    Ok(true)
}

#[test]
fn beginnings_are_refused(rt: HostRuntime) -> Result<(), Fail> {
    assert!(rt; refuses_beginnings(&rt, ADD.trim_end().as_bytes())?);
    Ok(())
}

// How many bytes a sink takes before a call that fails, where it is offered these pieces, each by itself. `None` where
// it fails at no call of them.
fn taken_before(pieces: &[usize], most: usize, fails: u64) -> Option<usize> {
    let mut calls = 0u64;
    let mut taken = 0usize;
    for piece in pieces {
        let more = calls.saturating_add(piece.div_ceil(most.max(1)) as u64);
        if fails <= more {
            let whole = fails.saturating_sub(calls.saturating_add(1)) as usize;
            return Some(taken.saturating_add(whole.saturating_mul(most)));
        }
        calls = more;
        taken = taken.saturating_add(*piece);
    }
    None
}

// A number above that of each call which takes the next of so many bytes, and of three more.
fn above_calls(bytes: usize, most: usize) -> u64 {
    (bytes.div_ceil(most.max(1)) as u64).saturating_add(5)
}

// The sink took so many of the first bytes of the text, or all of them.
fn holds(sink: &MemSink, text: &[u8], taken: Option<usize>) -> bool {
    let written = sink.written();
    written.len() == taken.unwrap_or(text.len()) && text.starts_with(written)
}

// A run, and how many bytes of its text are printed lines. They stand after the seven of the first line, and each of
// the three parts is offered by itself.
#[derive(Clone, Copy)]
struct Printing<'a> {
    case: Case<'a>,
    lines: usize,
}

// The run writes its text up to the call of the output that fails, and tells of that.
fn stops_at_output<R: Threads + Sync + AllocGlobal>(
    rt: &R,
    run: &Printing<'_>,
    most: usize,
    output: u64,
) -> Result<bool, AllocError> {
    let text = run.case.output.as_bytes();
    let tail = text.len().saturating_sub(7).saturating_sub(run.lines);
    let taken = taken_before(&[7, run.lines, tail], most, output);
    let (status, line) = if taken.is_some() {
        (8, WRITE_FAULT)
    } else {
        (0, "")
    };
    let case = Case {
        devices: Devices {
            most,
            output,
            ..SOUND
        },
        ..run.case
    };
    let answer = answer_of(rt, &case)?;
    Ok(
        answer.status == status
            && holds(&answer.output, text, taken)
            && answer.error.written() == line.as_bytes(),
    )
}

// Each call of the output fails in turn, and one after the last. The sink would take the next call.
fn stops_at_each_output<R: Threads + Sync + AllocGlobal>(
    rt: &R,
    run: &Printing<'_>,
) -> Result<bool, AllocError> {
    for most in MOST {
        for output in 1..above_calls(run.case.output.len(), most) {
            if !stops_at_output(rt, run, most, output)? {
                return Ok(false);
            }
        }
    }
    Ok(true)
}

static PRINTINGS: [Printing<'static>; 3] = [
    Printing {
        case: Case {
            program: EMPTY,
            output: EMPTY_TEXT,
            ..RUN
        },
        lines: 0,
    },
    Printing {
        case: Case {
            program: PRINTS,
            output: PRINTS_TEXT,
            ..RUN
        },
        lines: 5,
    },
    Printing {
        case: Case {
            words: "run p.gp --faults f.csv",
            ..STRUCK
        },
        lines: 0,
    },
];

// Each of the runs stops at each call of its output.
fn stop_at_each_output<R: Threads + Sync + AllocGlobal>(
    rt: &R,
    runs: &[Printing<'_>],
) -> Result<bool, AllocError> {
    for run in runs {
        if !stops_at_each_output(rt, run)? {
            return Ok(false);
        }
    }
    Ok(true)
}

#[test]
fn an_output_that_fails_has_a_prefix(rt: HostRuntime) -> Result<(), Fail> {
    assert!(rt; stop_at_each_output(&rt, &PRINTINGS)?);
    Ok(())
}

// A call, and how many bytes each piece has in which its error stream is offered what it takes.
#[derive(Clone, Copy)]
struct Telling<'a> {
    case: Case<'a>,
    pieces: &'a [usize],
}

// The error stream gets its bytes up to the call that fails, and the status tells of that.
fn stops_at_error<R: Threads + Sync + AllocGlobal>(
    rt: &R,
    telling: &Telling<'_>,
    most: usize,
    error: u64,
) -> Result<bool, AllocError> {
    let case = &telling.case;
    let taken = taken_before(telling.pieces, most, error);
    let status = if taken.is_some() { 8 } else { case.status };
    let failing = Case {
        devices: Devices {
            most,
            error,
            ..case.devices
        },
        ..*case
    };
    let answer = answer_of(rt, &failing)?;
    Ok(
        answer.status == status
            && answer.output.written() == case.output.as_bytes()
            && holds(&answer.error, case.error.as_bytes(), taken),
    )
}

// Each call of the error stream fails in turn, and one after the last.
fn stops_at_each_error<R: Threads + Sync + AllocGlobal>(
    rt: &R,
    telling: &Telling<'_>,
) -> Result<bool, AllocError> {
    for most in MOST {
        for error in 1..above_calls(telling.case.error.len(), most) {
            if !stops_at_error(rt, telling, most, error)? {
                return Ok(false);
            }
        }
    }
    Ok(true)
}

// A line, whose words or whose first read or write fail. The name of the program is offered first, and then the line, in which a
// name is offered by itself.
static LINES: [Telling<'static>; 4] = [
    Telling {
        case: Case {
            words: "run",
            program: EMPTY,
            status: 2,
            error: USAGE,
            ..RUN
        },
        pieces: &[6, 32],
    },
    Telling {
        case: Case {
            words: "run q.gp",
            program: EMPTY,
            status: 7,
            error: "gprs: read fault q.gp\n",
            ..RUN
        },
        pieces: &[6, 11, 4, 1],
    },
    Telling {
        case: Case {
            program: EMPTY,
            devices: Devices { read: 1, ..SOUND },
            status: 7,
            error: "gprs: read fault p.gp\n",
            ..RUN
        },
        pieces: &[6, 11, 4, 1],
    },
    Telling {
        case: Case {
            program: EMPTY,
            devices: Devices { output: 1, ..SOUND },
            status: 8,
            error: WRITE_FAULT,
            ..RUN
        },
        pieces: &[6, 12],
    },
];

// Each of the calls stops at each call of its error stream.
fn stop_at_each_error<R: Threads + Sync + AllocGlobal>(
    rt: &R,
    tellings: &[Telling<'_>],
) -> Result<bool, AllocError> {
    for telling in tellings {
        if !stops_at_each_error(rt, telling)? {
            return Ok(false);
        }
    }
    Ok(true)
}

#[test]
fn an_error_stream_that_fails_has_a_prefix(rt: HostRuntime) -> Result<(), Fail> {
    assert!(rt; stop_at_each_error(&rt, &LINES)?);
    Ok(())
}

// The error stream of the struck run gets its trace up to the call that fails. The whole trace is that of a run whose
// error stream does not fail.
fn stops_in_its_trace<R: Threads + Sync + AllocGlobal>(rt: &R) -> Result<bool, AllocError> {
    let whole = answer_of(rt, &STRUCK_RUN)?;
    let case = Case {
        error: text_of(whole.error.written()),
        ..STRUCK_RUN
    };
    let pieces = [case.error.len()];
    let telling = Telling {
        case,
        pieces: &pieces,
    };
    stops_at_each_error(rt, &telling)
}

#[test]
fn a_trace_that_fails_has_a_prefix(rt: HostRuntime) -> Result<(), Fail> {
    assert!(rt; stops_in_its_trace(&rt)?);
    Ok(())
}

// This read of the batch of transfers fails, which is that of this file.
fn fails_to_read<R: Threads + Sync + AllocGlobal>(
    rt: &R,
    read: u64,
    line: &str,
) -> Result<bool, AllocError> {
    let case = Case {
        words: "run soak.gp --faults faults.csv",
        devices: Devices { read, ..SOUND },
        status: 7,
        error: line,
        ..PLAIN
    };
    let answer = answer_over_batch(rt, &case)?;
    Ok(tells(&answer, &case))
}

// The program is read first and the faults last.
fn names_unread<R: Threads + Sync + AllocGlobal>(rt: &R) -> Result<bool, AllocError> {
    Ok(
        fails_to_read(rt, 1, "gprs: read fault soak.gp\n")?
            && fails_to_read(rt, 2, "gprs: read fault acct.csv\n")?
            && fails_to_read(rt, 3, "gprs: read fault moves.csv\n")?
            && fails_to_read(rt, 4, "gprs: read fault faults.csv\n")?,
    )
}

#[test]
fn each_file_is_named_that_can_not_be_read(rt: HostRuntime) -> Result<(), Fail> {
    assert!(rt; names_unread(&rt)?);
    Ok(())
}

// A run whose file of faults is refused.
const REFUSED: Case<'static> = Case {
    words: "run p.gp --faults f.csv",
    program: ADD,
    status: 4,
    ..RUN
};

static FAULTS: [Case<'static>; 5] = [
    Case {
        faults: "4,0,65,1\n",
        error: "gprs: input f.csv kind 3 row 1\n",
        ..REFUSED
    },
    Case {
        faults: "4,0,3\n",
        error: "gprs: input f.csv kind 1 row 1\n",
        ..REFUSED
    },
    Case {
        faults: "4,0,3,1\n4,0,3,1\n",
        error: "gprs: input f.csv kind 4 row 2\n",
        ..REFUSED
    },
    Case {
        faults: "4,0,x,1\n",
        error: "gprs: input f.csv kind 2 row 1\n",
        ..REFUSED
    },
    Case {
        words: "run p.gp --faults f.csv",
        faults: "\"4\",0,3,1\r\n",
        ..STRUCK
    },
];

static REFUSED_RUN: Case<'static> = REFUSED;

// So many faults on one position, each on a row.
fn faults_of(alloc: Global, count: u32) -> Result<String, AllocError> {
    let mut faults = String::new(alloc);
    for attempt in 0..count {
        let row = format!(in alloc; "4,{attempt},3,1\n")?;
        faults.push_str(row.as_str())?;
    }
    Ok(faults)
}

// 1,001 faults on one position are too many.
fn refuses_too_many<R: Threads + Sync + AllocGlobal>(rt: &R) -> Result<bool, AllocError> {
    let faults = faults_of(rt.alloc(), 1001)?;
    let case = Case {
        faults: faults.as_str(),
        error: "gprs: input f.csv kind 5 row 1001\n",
        ..REFUSED_RUN
    };
    let is_refused = gives(rt, &case);
    drop(faults);
    is_refused
}

// A file of one byte too many is not read.
fn refuses_too_long<R: Threads + Sync + AllocGlobal>(rt: &R) -> Result<bool, AllocError> {
    let faults = " ".repeat(rt.alloc(), 33554433)?;
    let case = Case {
        faults: faults.as_str(),
        error: "gprs: input f.csv kind 6 row 0\n",
        ..REFUSED_RUN
    };
    let is_refused = gives(rt, &case);
    drop(faults);
    is_refused
}

#[test]
fn files_of_faults(rt: HostRuntime) -> Result<(), Fail> {
    assert!(rt; give(&rt, &FAULTS)? && refuses_too_many(&rt)? && refuses_too_long(&rt)?);
    Ok(())
}
