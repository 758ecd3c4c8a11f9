// The call that may wait, with lasting workers: the same rows as by the others.

use crate::gates::{Crowd, LOOPED_ADD, Meeting, THREE};
use batch_calls::gprs_run_pipe;
use batch_fixtures::files::words_of;
use batch_fixtures::programs::{ADD, ADDED, EMPTY};
use call_fixtures::answers::{Answer, answered, tells};
use call_fixtures::cases::{Case, PLAIN, RUN, files_of};
use call_fixtures::entries::{gate_over, is_entered_as_posted};
use gp_base::{FreeGate, Gate, MemShelf, MemSink, Seq};
use std::alloc::AllocError;
use std::sync::{Arc, Wait};
use std::test::Fail;
use std::thread::Threads;

const STRUCK: &str =
    "output\nrecords\ntotal: 7\nrestarts\n1: front 8 struck 4 try 0 redo 4 6 7\ncounts\nsubthreads 11\nrestarts 1\nredone 3\nunused 0\n";

const SOAK: &str =
    "soak 2000 1\nend finished\nsum 100000\ncounts\nsubthreads 8025\nrestarts 40\nredone 240\nunused 0\n";

// What the case comes to over sound devices, where tasks enter this gate.
fn answer_through<
    R: Threads + Wait + Clone + Send + Sync + Drop + AllocGlobal + 'static,
    G: Gate + Send + Drop + 'static,
>(rt: &R, case: &Case<'_>, gate: &Arc<G>) -> Result<Box<Answer>, AllocError> {
    let alloc = rt.alloc();
    let words = words_of(alloc, case.words)?;
    let files = files_of(alloc, case)?;
    let mut shelf = MemShelf::new(alloc, files, Seq::new(alloc));
    let mut output = MemSink::new(alloc, 1000, Seq::new(alloc));
    let mut error = MemSink::new(alloc, 1000, Seq::new(alloc));
    let outcome = gprs_run_pipe(rt, &words, &mut shelf, &mut output, &mut error, gate);
    drop(shelf);
    answered(alloc, outcome, output, error)
}

// The call has the answer of the case by this crew, whose words come after its own.
fn gives_by<R: Threads + Wait + Clone + Send + Sync + Drop + AllocGlobal + 'static>(
    rt: &R,
    case: &Case<'_>,
    crew: &str,
) -> Result<bool, AllocError> {
    let gate = Arc::new(rt.alloc(), FreeGate)?;
    let words = format!(in rt.alloc(); "{}{crew}", case.words)?;
    let case = Case {
        words: words.as_str(),
        ..*case
    };
    let answer = answer_through(rt, &case, &gate)?;
    Ok(tells(&answer, &case))
}

static RUNS: [Case<'static>; 3] = [
    Case {
        program: ADD,
        faults: "4,0,3,1\n",
        output: ADDED,
        ..RUN
    },
    Case {
        words: "run p.gp --faults f.csv",
        program: ADD,
        faults: "4,0,3,1\n",
        output: STRUCK,
        ..RUN
    },
    Case {
        words: "soak 2000 1",
        program: EMPTY,
        output: SOAK,
        ..RUN
    },
];

static CREWS: [&str; 4] = [
    " --crew one",
    " --crew pipe --workers 1",
    " --crew pipe --workers 2",
    " --crew pipe --workers 64",
];

// Each of the cases has its answer by each crew.
fn give<R: Threads + Wait + Clone + Send + Sync + Drop + AllocGlobal + 'static>(
    rt: &R,
    cases: &[Case<'_>],
) -> Result<bool, AllocError> {
    for case in cases {
        for crew in &CREWS {
            if !gives_by(rt, case, crew)? {
                return Ok(false);
            }
        }
    }
    Ok(true)
}

#[test]
fn lasting_workers_write_what_others_do(rt: HostRuntime) -> Result<(), Fail> {
    assert!(rt; give(&rt, &RUNS)?);
    Ok(())
}

// Each position enters the gate as often as the journal posts it.
fn enters_as_posted<R: Threads + Wait + Clone + Send + Sync + Drop + AllocGlobal + 'static>(
    rt: &R,
    words: &str,
    positions: usize,
) -> Result<bool, AllocError> {
    let alloc = rt.alloc();
    let gate = Arc::new(alloc, gate_over(alloc, positions)?)?;
    let case = Case {
        words,
        program: ADD,
        faults: "4,0,3,1\n",
        ..PLAIN
    };
    let answer = answer_through(rt, &case, &gate)?;
    is_entered_as_posted(alloc, &answer, &gate, positions)
}

#[test]
fn tasks_enter_the_gate_as_they_are_posted(rt: HostRuntime) -> Result<(), Fail> {
    assert!(rt;
        enters_as_posted(&rt, "run p.gp --crew pipe --workers 2", 11)?
            && enters_as_posted(&rt, "run p.gp --faults f.csv --crew pipe --workers 2", 11)?
            && enters_as_posted(&rt, "soak 2000 1 --crew pipe --workers 2", 8025)?
    );
    Ok(())
}

// Whether the run of the two threads by these words ends well, and two of its tasks meet, or do not.
fn meets<R: Threads + Wait + Clone + Send + Sync + Drop + AllocGlobal + 'static>(
    rt: &R,
    words: &str,
    are_to: bool,
) -> Result<bool, AllocError> {
    let gate = Arc::new(rt.alloc(), Meeting::new(are_to))?;
    let case = Case {
        words,
        program: LOOPED_ADD,
        ..PLAIN
    };
    let answer = answer_through(rt, &case, &gate)?;
    Ok(answer.status == 0 && gate.has_met() == are_to)
}

#[test]
fn two_tasks_meet_where_two_workers_run_them(rt: HostRuntime) -> Result<(), Fail> {
    assert!(rt; meets(&rt, "run p.gp --crew pipe --workers 2", true)?);
    assert!(rt; meets(&rt, "run p.gp --crew pipe --workers 1", false)?);
    Ok(())
}

// Whether the run by these words ends well, and three of its tasks are in at once, or are not.
fn crowds<R: Threads + Wait + Clone + Send + Sync + Drop + AllocGlobal + 'static>(
    rt: &R,
    words: &str,
    are_to: bool,
) -> Result<bool, AllocError> {
    let gate = Arc::new(rt.alloc(), Crowd::new(are_to))?;
    let case = Case {
        words,
        program: THREE,
        ..PLAIN
    };
    let answer = answer_through(rt, &case, &gate)?;
    Ok(answer.status == 0 && gate.is_told() == are_to)
}

#[test]
fn no_more_tasks_run_at_once_than_there_are_workers(rt: HostRuntime) -> Result<(), Fail> {
    assert!(rt; crowds(&rt, "run p.gp --crew pipe --workers 64", true)?);
    assert!(rt; crowds(&rt, "run p.gp --crew pipe --workers 2", false)?);
    Ok(())
}
