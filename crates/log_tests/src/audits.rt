// Audits of traces: the worked examples, and the traces of runs that faults strike.

use batch_fixtures::programs::{ADD, EMPTY, USAGE};
use call_fixtures::answers::{Answer, answer_of, give, text_of};
use call_fixtures::cases::{Call, Case, PLAIN, RUN};
use call_fixtures::crews::CREWS;
use gp_base::{Name, Text};
use soak_batch::soak_files;
use std::alloc::AllocError;
use std::test::Fail;
use std::thread::Threads;

// An audit of the run of nothing, whose trace is that of no run.
const AUDIT: Case<'static> = Case {
    call: Call::Audit,
    words: "audit p.gp t.txt",
    program: EMPTY,
    ..RUN
};

static TRACES: [Case<'static>; 7] = [
    Case {
        trace: "issue 0\npost 0 0\ntake 0 0 applied\nretire 0\n",
        output: "lawful\n",
        ..AUDIT
    },
    Case {
        trace: "issue 0\npost 0 0\nretire 0\n",
        status: 9,
        output: "unlawful 3\n",
        ..AUDIT
    },
    Case {
        trace: "issue 0\npost 0 0\ntake 0 0 applied\n",
        status: 10,
        output: "incomplete\n",
        ..AUDIT
    },
    Case {
        trace: "issue x\n",
        status: 4,
        error: "gprs: input t.txt kind 9 row 1\n",
        ..AUDIT
    },
    Case {
        trace: "",
        status: 10,
        output: "incomplete\n",
        ..AUDIT
    },
    Case {
        trace: "issue 0",
        status: 4,
        error: "gprs: input t.txt kind 9 row 1\n",
        ..AUDIT
    },
    Case {
        trace: "issue 1\nissue 00\n",
        status: 4,
        error: "gprs: input t.txt kind 9 row 2\n",
        ..AUDIT
    },
];

#[test]
fn a_trace_of_one_subthread(rt: HostRuntime) -> Result<(), Fail> {
    assert!(rt; give(&rt, &TRACES)?);
    Ok(())
}

// An audit that is refused.
const REFUSED: Case<'static> = Case {
    faults: "0,0,65,1\n",
    trace: "retire x\n",
    status: 2,
    error: USAGE,
    ..AUDIT
};

// The trace is read last, and none of its rows is judged before all of them are read.
static REFUSALS: [Case<'static>; 9] = [
    Case {
        words: "audit p.gp",
        ..REFUSED
    },
    Case {
        words: "audit p.gp t.txt --crew one",
        ..REFUSED
    },
    Case {
        words: "audit p.gp t.txt --trace",
        ..REFUSED
    },
    Case {
        words: "audit p.gp t.txt --turns 0",
        ..REFUSED
    },
    Case {
        words: "run p.gp t.txt",
        ..REFUSED
    },
    Case {
        words: "audit t.txt t.txt",
        status: 3,
        error: "gprs: parse 1 at byte 0\n",
        ..REFUSED
    },
    Case {
        words: "audit g.gp t.txt",
        status: 7,
        error: "gprs: read fault g.gp\n",
        ..REFUSED
    },
    Case {
        words: "audit p.gp t.txt --faults f.csv",
        status: 4,
        error: "gprs: input f.csv kind 3 row 1\n",
        ..REFUSED
    },
    Case {
        words: "audit p.gp g.txt",
        status: 7,
        error: "gprs: read fault g.txt\n",
        ..REFUSED
    },
];

#[test]
fn audits_that_are_refused(rt: HostRuntime) -> Result<(), Fail> {
    assert!(rt; give(&rt, &REFUSALS)?);
    Ok(())
}

// What the audit by these words of the trace that a run of the case wrote comes to.
fn audit_of<R: Threads + Sync + AllocGlobal>(
    rt: &R,
    case: &Case<'_>,
    words: &str,
    ran: &Answer,
) -> Result<Box<Answer>, AllocError> {
    answer_of(
        rt,
        &Case {
            call: Call::Audit,
            words,
            trace: text_of(ran.error.written()),
            ..*case
        },
    )
}

// The trace of the run is judged lawful; without its faults it is that of no run.
fn is_lawful<R: Threads + Sync + AllocGlobal>(rt: &R, case: &Case<'_>) -> Result<bool, AllocError> {
    let ran = answer_of(rt, case)?;
    let struck = audit_of(rt, case, "audit p.gp t.txt --faults f.csv", &ran)?;
    let unstruck = audit_of(rt, case, "audit p.gp t.txt", &ran)?;
    Ok(
        ran.status == 0
            && struck.status == 0
            && struck.output.written() == b"lawful\n".as_slice()
            && unstruck.status == 9,
    )
}

// The trace of the run by each crew is judged lawful.
fn are_lawful<R: Threads + Sync + AllocGlobal>(
    rt: &R,
    case: &Case<'_>,
) -> Result<bool, AllocError> {
    let alloc = rt.alloc();
    for crew in &CREWS {
        let words = format!(in alloc; "run p.gp --faults f.csv --trace{crew}")?;
        let is_told = is_lawful(
            rt,
            &Case {
                words: words.as_str(),
                ..*case
            },
        );
        drop(words);
        if !is_told? {
            return Ok(false);
        }
    }
    Ok(true)
}

// The run of a batch of transfers.
fn transfers(batch: &[(Name, Text)]) -> Option<Case<'_>> {
    let [program, acct, moves, faults] = batch else {
        return None;
    };
    Some(Case {
        program: text_of(program.1.as_slice()),
        acct: text_of(acct.1.as_slice()),
        moves: text_of(moves.1.as_slice()),
        faults: text_of(faults.1.as_slice()),
        ..PLAIN
    })
}

// The traces of a batch of transfers are judged lawful.
fn transfers_are_lawful<R: Threads + Sync + AllocGlobal>(rt: &R) -> Result<bool, AllocError> {
    let batch = soak_files(rt.alloc(), 40, 1)?;
    let is_told = match transfers(batch.as_slice()) {
        Some(case) => are_lawful(rt, &case),
        None => Ok(false),
    };
    drop(batch);
    is_told
}

static ADDS: Case<'static> = Case {
    program: ADD,
    faults: "4,0,3,1\n",
    ..RUN
};

#[test]
fn traces_of_runs_are_lawful(rt: HostRuntime) -> Result<(), Fail> {
    assert!(rt; are_lawful(&rt, &ADDS)? && transfers_are_lawful(&rt)?);
    Ok(())
}
