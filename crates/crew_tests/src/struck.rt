// Runs that faults strike, whoever carries them out: the worked examples, and a batch of transfers.

use batch_fixtures::programs::{ADD, EDGES, EMPTY};
use call_fixtures::answers::{answer_of, give, gives_by, text_of};
use call_fixtures::cases::{Case, PLAIN, RUN};
use call_fixtures::crews::{CREWS, PAIRS};
use call_fixtures::entries::enter_as_posted;
use call_fixtures::runs::{ALONE, BARE, Run, come_to, comes_to};
use std::alloc::{AllocError, Global};
use std::test::Fail;
use std::thread::Threads;

// One thread reads the total before the other adds to it.
const PEEK: &str = "lock tally[1];
record total[1] by tally;
task add(n) {
  var $t;
  lock tally[0];
  read total[0] into $t;
  write total[0] = $t + n;
  unlock tally[0];
}
task peek() { lock tally[0]; read total[0] into $ret; unlock tally[0]; }
task main() {
  var $p;
  fork peek();
  fork add(4);
  join 1 into $p;
  print $p;
  join 2;
}
";

// Two threads write a record each under one lock.
const APART: &str = "lock bank[1];
record acct[1] by bank;
record fee[1] by bank;
task a() { lock bank[0]; write acct[0] = 5; unlock bank[0]; }
task b() { lock bank[0]; write fee[0] = 6; unlock bank[0]; }
task main() { fork a(); fork b(); join 1; join 2; }
";

// The second one names the record of the first too, in the arm of a choice that it does not take.
const NAMED: &str = "lock bank[1];
record acct[1] by bank;
record fee[1] by bank;
task a() { lock bank[0]; write acct[0] = 5; unlock bank[0]; }
task b() { var $z; lock bank[0]; when $z { write acct[0] = 7; } else { write fee[0] = 6; } unlock bank[0]; }
task main() { fork a(); fork b(); join 1; join 2; }
";

// Ten threads add to a record each, five times, under one lock.
fn ten_records(alloc: Global) -> Result<String, AllocError> {
    let mut text = format!(in alloc; "lock bank[1];\n")?;
    for number in 0u32..10 {
        let record = format!(in alloc; "record r{number}[1] by bank;\n")?;
        text.push_str(record.as_str())?;
    }
    for number in 0u32..10 {
        let task = format!(in alloc;
            "task t{number}() {{ var i, $x; while i < 5 {{ lock bank[0]; read r{number}[0] into $x; write r{number}[0] = $x + 1; unlock bank[0]; i = i + 1; }} }}\n"
        )?;
        text.push_str(task.as_str())?;
    }
    text.push_str(
        "task main() { var w; fork t0(); fork t1(); fork t2(); fork t3(); fork t4(); fork t5(); fork t6(); fork t7(); fork t8(); fork t9(); w = 1; while w <= 10 { join w; w = w + 1; } }\n",
    )?;
    Ok(text)
}

// A fault strikes the first of the two threads that add to one total.
const ADDS: Case<'static> = Case {
    program: ADD,
    faults: "4,0,3,1\n",
    ..ALONE
};

const STRUCK: Run<'static> = Run {
    case: ADDS,
    told: "records\ntotal: 7\n",
    restarts: "1: front 8 struck 4 try 0 redo 4 6 7\n",
    counts: [11, 1, 3, 0],
};

const THRICE: &str =
    "1: front 6 struck 4 try 0 redo 4\n2: front 7 struck 4 try 1 redo 4 6\n3: front 8 struck 4 try 2 redo 4 6 7\n";

static REDONE: [Run<'static>; 10] = [
    STRUCK,
    Run {
        case: Case {
            faults: "4,0,6,1\n",
            ..ADDS
        },
        restarts: "1: front 11 struck 4 try 0 redo 4 6 7 8 9 10\n",
        counts: [11, 1, 6, 0],
        ..STRUCK
    },
    Run {
        case: Case {
            faults: "0,0,0,5\n",
            ..ADDS
        },
        restarts: "1: front 1 struck 0 try 0 redo 0\n",
        counts: [11, 1, 1, 0],
        ..STRUCK
    },
    Run {
        case: Case {
            faults: "4,0,1,9\n4,1,1,9\n4,2,1,9\n",
            ..ADDS
        },
        restarts: THRICE,
        counts: [11, 3, 6, 0],
        ..STRUCK
    },
    Run {
        case: Case {
            faults: "4,0,3,1\n7,0,0,1\n",
            ..ADDS
        },
        counts: [11, 1, 3, 1],
        ..STRUCK
    },
    Run {
        case: Case {
            faults: "1000,0,0,1\n",
            ..ADDS
        },
        restarts: "",
        counts: [11, 0, 0, 1],
        ..STRUCK
    },
    Run {
        case: Case {
            program: PEEK,
            ..ADDS
        },
        told: "0\nrecords\ntotal: 4\n",
        ..STRUCK
    },
    Run {
        case: Case {
            program: EDGES,
            faults: "0,0,5,1\n",
            ..ADDS
        },
        told: "-9223372036854775808\n-9223372036854775808\n0 0 -3 -1\nrecords\n",
        restarts: "1: front 1 struck 0 try 0 redo 0\n",
        counts: [1, 1, 1, 0],
    },
    Run {
        case: Case {
            program: APART,
            ..ADDS
        },
        told: "records\nacct: 5\nfee: 6\n",
        restarts: "1: front 8 struck 4 try 0 redo 4 6\n",
        counts: [11, 1, 2, 0],
    },
    Run {
        case: Case {
            program: NAMED,
            ..ADDS
        },
        told: "records\nacct: 5\nfee: 6\n",
        ..STRUCK
    },
];

#[test]
fn faults_redo_their_dependents(rt: HostRuntime) -> Result<(), Fail> {
    assert!(rt; come_to(&rt, &REDONE, "run", " --faults f.csv", &CREWS)?);
    Ok(())
}

// A fault redoes what named the record of the position that it strikes, and not what held the same lock, which would be
// 43 positions.
fn redoes_one_record<R: Threads + Sync + AllocGlobal>(rt: &R) -> Result<bool, AllocError> {
    let program = ten_records(rt.alloc())?;
    let run = Run {
        case: Case {
            program: program.as_str(),
            faults: "50,0,60,1\n",
            ..BARE
        },
        told: "records\nr0: 5\nr1: 5\nr2: 5\nr3: 5\nr4: 5\nr5: 5\nr6: 5\nr7: 5\nr8: 5\nr9: 5\n",
        restarts: "1: front 111 struck 50 try 0 redo 50 69 70 89 90\n",
        counts: [131, 1, 5, 0],
    };
    let is_told = comes_to(rt, &run, "run", " --faults f.csv", &CREWS);
    drop(program);
    is_told
}

#[test]
fn a_lock_over_ten_records_redoes_those_of_one(rt: HostRuntime) -> Result<(), Fail> {
    assert!(rt; redoes_one_record(&rt)?);
    Ok(())
}

static REFUSED: [Case<'static>; 2] = [
    Case {
        words: "run p.gp --faults f.csv",
        program: ADD,
        faults: "4,0,3,0\n",
        status: 4,
        error: "gprs: input f.csv kind 3 row 1\n",
        ..RUN
    },
    Case {
        words: "run p.gp --faults g.csv",
        program: ADD,
        faults: "4,0,3,0\n",
        status: 7,
        error: "gprs: read fault g.csv\n",
        ..RUN
    },
];

#[test]
fn a_file_of_faults_is_refused(rt: HostRuntime) -> Result<(), Fail> {
    assert!(rt; give(&rt, &REFUSED)?);
    Ok(())
}

// Whether the run of nothing has this trace.
fn is_traced<R: Threads + Sync + AllocGlobal>(rt: &R) -> Result<bool, AllocError> {
    let trace = "issue 0\npost 0 0\ntake 0 0 applied\nretire 0\n";
    let case = Case {
        words: "run p.gp --trace",
        program: EMPTY,
        ..PLAIN
    };
    let answer = answer_of(rt, &case)?;
    Ok(answer.status == 0 && answer.error.written() == trace.as_bytes())
}

// How many restarts the trace tells, where each is that of position 4 at front 8.
fn restarts_in(trace: &str) -> Option<u32> {
    let mut restarts = 0u32;
    for line in trace.lines() {
        if line.starts_with("restart") {
            if line != "restart 8 4 0 redo 4 6 7" {
                return None;
            }
            restarts = restarts.saturating_add(1);
        }
    }
    Some(restarts)
}

// Whether the restart of the struck run is traced.
fn is_restart_traced<R: Threads + Sync + AllocGlobal>(rt: &R) -> Result<bool, AllocError> {
    let case = Case {
        words: "run p.gp --faults f.csv --trace",
        program: ADD,
        faults: "4,0,3,1\n",
        ..PLAIN
    };
    let answer = answer_of(rt, &case)?;
    Ok(restarts_in(text_of(answer.error.written())) == Some(1))
}

#[test]
fn runs_are_traced(rt: HostRuntime) -> Result<(), Fail> {
    assert!(rt; is_traced(&rt)? && is_restart_traced(&rt)?);
    Ok(())
}

// The restarts were counted by a reckoning of the order and of the rules of dependence alone.
static SOAK: Case<'static> = Case {
    words: "soak 2000 1",
    program: EMPTY,
    output: "soak 2000 1\nend finished\nsum 100000\ncounts\nsubthreads 8025\nrestarts 40\nredone 240\nunused 0\n",
    ..RUN
};

#[test]
fn a_batch_of_transfers_keeps_its_sum(rt: HostRuntime) -> Result<(), Fail> {
    assert!(rt; gives_by(&rt, &SOAK, &CREWS)?);
    Ok(())
}

static ENTERED: [Case<'static>; 2] = [
    Case {
        program: ADD,
        faults: "4,0,3,1\n",
        ..RUN
    },
    Case {
        words: "run p.gp --faults f.csv",
        program: ADD,
        faults: "4,0,3,1\n",
        ..RUN
    },
];

static ENTERED_BATCH: [Case<'static>; 1] = [Case {
    words: "soak 2000 1",
    program: ADD,
    faults: "4,0,3,1\n",
    ..RUN
}];

#[test]
fn tasks_enter_the_gate_as_they_are_posted(rt: HostRuntime) -> Result<(), Fail> {
    assert!(rt;
        enter_as_posted(&rt, &ENTERED, &PAIRS, 11)?
            && enter_as_posted(&rt, &ENTERED_BATCH, &PAIRS, 8025)?
    );
    Ok(())
}
