// Batches in which data becomes control: each settle is issued once all before it have retired, whoever runs the batch.
// Orders and restarts were reckoned by hand from the rules of the order and of dependence.

use batch_fixtures::programs::{ADD, ROUTED};
use call_fixtures::answers::{answer_of, give};
use call_fixtures::cases::{Case, PLAIN, RUN};
use call_fixtures::crews::CREWS;
use call_fixtures::runs::{ALONE, Run, comes_to};
use std::alloc::AllocError;
use std::test::Fail;
use std::thread::Threads;

// It names one that isn't there.
const LOST: &str = "lock bank[3];
record acct[3] by bank;
task main() {
  var i, $x;
  $x = 3;
  settle $x into i;
  lock bank[i];
  write acct[i] = 9;
  unlock bank[i];
}
";

const LOCKED: &str = "lock bank[2];
record acct[2] by bank;
task main() {
  var n, $x;
  lock bank[0];
  write acct[0] = 7;
  read acct[0] into $x;
  settle $x into n;
  write acct[0] = $x + n;
  print n;
  unlock bank[0];
}
";

const FORKED: &str = "task double(n) { $ret = n * 2; }
task main() {
  var h, $r;
  fork double(4) into h;
  join h into $r;
  settle $r into h;
  print h;
}
";

const IN_TURN: &str = "lock tally[1];
record total[1] by tally;
task add() {
  var n, $x;
  lock tally[0];
  read total[0] into $x;
  write total[0] = $x + 3;
  unlock tally[0];
  settle $x into n;
  while n { print self, n; n = n - 1; }
}
task main() { fork add(); fork add(); join 1; join 2; }
";

const MET: &str = "barrier meet(2);
task other() { var n, $x; $x = 5; barrier meet; settle $x into n; print n; }
task main() { var n, $x; fork other(); $x = 6; barrier meet; settle $x into n; print n; }
";

// Batches that settle, with their files of faults.
static RUNS: [Run<'static>; 15] = [
    Run {
        case: Case {
            program: ROUTED,
            ..ALONE
        },
        told: "records\nacct: 2 0 9\n",
        restarts: "",
        counts: [6, 0, 0, 0],
    },
    Run {
        case: Case {
            program: ROUTED,
            faults: "1,0,60,1\n",
            ..ALONE
        },
        told: "records\nacct: 2 0 9\n",
        restarts: "1: front 3 struck 1 try 0 redo 1 2\n",
        counts: [6, 1, 2, 0],
    },
    Run {
        case: Case {
            words: "p.gp --subthreads 3",
            program: ROUTED,
            status: 6,
            ..ALONE
        },
        told: "spent 3\n",
        restarts: "",
        counts: [3, 0, 0, 0],
    },
    Run {
        case: Case {
            words: "p.gp --subthreads 3",
            program: ROUTED,
            faults: "1,0,60,1\n",
            status: 6,
            ..ALONE
        },
        told: "spent 3\n",
        restarts: "1: front 3 struck 1 try 0 redo 1 2\n",
        counts: [3, 1, 2, 0],
    },
    Run {
        case: Case {
            program: LOST,
            status: 5,
            ..ALONE
        },
        told: "stuck index thread 0 line 7\n",
        restarts: "",
        counts: [2, 0, 0, 0],
    },
    Run {
        case: Case {
            program: LOST,
            faults: "0,0,64,1\n",
            status: 5,
            ..ALONE
        },
        told: "stuck index thread 0 line 7\n",
        restarts: "1: front 1 struck 0 try 0 redo 0\n",
        counts: [2, 1, 1, 0],
    },
    Run {
        case: Case {
            program: LOCKED,
            ..ALONE
        },
        told: "7\nrecords\nacct: 14 0\n",
        restarts: "",
        counts: [4, 0, 0, 0],
    },
    Run {
        case: Case {
            program: LOCKED,
            faults: "1,0,60,1\n",
            ..ALONE
        },
        told: "7\nrecords\nacct: 14 0\n",
        restarts: "1: front 2 struck 1 try 0 redo 1\n",
        counts: [4, 1, 1, 0],
    },
    Run {
        case: Case {
            program: LOCKED,
            faults: "2,0,1,1\n3,0,0,4\n",
            ..ALONE
        },
        told: "7\nrecords\nacct: 14 0\n",
        restarts: "1: front 4 struck 2 try 0 redo 2 3\n",
        counts: [4, 1, 2, 1],
    },
    Run {
        case: Case {
            program: FORKED,
            ..ALONE
        },
        told: "8\nrecords\n",
        restarts: "",
        counts: [5, 0, 0, 0],
    },
    Run {
        case: Case {
            program: FORKED,
            faults: "2,0,60,1\n",
            ..ALONE
        },
        told: "8\nrecords\n",
        restarts: "1: front 4 struck 2 try 0 redo 2 3\n",
        counts: [5, 1, 2, 0],
    },
    Run {
        case: Case {
            program: IN_TURN,
            ..ALONE
        },
        told: "2 3\n2 2\n2 1\nrecords\ntotal: 6\n",
        restarts: "",
        counts: [13, 0, 0, 0],
    },
    Run {
        case: Case {
            program: IN_TURN,
            faults: "4,0,64,1\n7,0,2,1\n9,0,40,8\n",
            ..ALONE
        },
        told: "2 3\n2 2\n2 1\nrecords\ntotal: 6\n",
        restarts: "1: front 8 struck 4 try 0 redo 4 6 7\n2: front 11 struck 9 try 0 redo 9\n",
        counts: [13, 2, 4, 1],
    },
    Run {
        case: Case {
            program: MET,
            ..ALONE
        },
        told: "5\n6\nrecords\n",
        restarts: "",
        counts: [7, 0, 0, 0],
    },
    Run {
        case: Case {
            program: MET,
            faults: "2,0,60,1\n4,0,60,1\n",
            ..ALONE
        },
        told: "5\n6\nrecords\n",
        restarts: "1: front 5 struck 2 try 0 redo 2 3\n2: front 5 struck 4 try 0 redo 4\n",
        counts: [7, 2, 3, 0],
    },
];

// The batch comes to this by each crew, and without faults also by one thread.
fn settles<R: Threads + Sync + AllocGlobal>(rt: &R, run: &Run<'_>) -> Result<bool, AllocError> {
    Ok(
        comes_to(rt, run, "run", " --faults f.csv", &CREWS)?
            && (!run.case.faults.is_empty() || comes_to(rt, run, "one", "", &[""])?),
    )
}

// Each of the batches comes to what it is to.
fn settle<R: Threads + Sync + AllocGlobal>(rt: &R, runs: &[Run<'_>]) -> Result<bool, AllocError> {
    for run in runs {
        if !settles(rt, run)? {
            return Ok(false);
        }
    }
    Ok(true)
}

#[test]
fn settles_find_the_numbers_of_the_plain_run(rt: HostRuntime) -> Result<(), Fail> {
    assert!(rt; settle(&rt, &RUNS)?);
    Ok(())
}

// The index of a lock that is held is no variable that a settle may set.
fn refuses_held<R: Threads + Sync + AllocGlobal>(rt: &R) -> Result<bool, AllocError> {
    let free = "  settle $x into i;\n  lock bank[i];\n";
    let held = "  lock bank[i];\n  settle $x into i;\n";
    let program = ROUTED.replace(rt.alloc(), free, held)?;
    let run = Case {
        program: program.as_str(),
        status: 3,
        error: "gprs: check 9 at line 10\n",
        ..PLAIN
    };
    let one = Case {
        words: "one p.gp",
        ..run
    };
    let check = Case {
        words: "check p.gp",
        ..run
    };
    let is_refused = give(rt, &[run, one, check]);
    drop(program);
    is_refused
}

#[test]
fn a_held_index_is_not_settled(rt: HostRuntime) -> Result<(), Fail> {
    assert!(rt; refuses_held(&rt)?);
    Ok(())
}

// The events of a run by one worker that the fault strikes, up to the restart: what was issued is run once before it.
const STRUCK: &str = "issue 0
post 0 0
take 0 0 applied
issue 1
issue 2
post 1 0
take 1 0 applied
issue 3
post 2 0
post 3 0
take 2 0 applied
issue 4
issue 5
post 4 0
take 3 0 applied
post 5 0
take 4 0 applied
issue 6
post 6 0
take 5 0 applied
issue 7
post 7 0
take 6 0 applied
take 7 0 applied
restart 8 4 0 redo 4 6 7
";

// The same of a batch that settles, whole: at the settle the fault is due, and what was redone retires before it.
const SETTLED: &str = "issue 0
post 0 0
take 0 0 applied
issue 1
post 1 0
take 1 0 applied
issue 2
post 2 0
take 2 0 applied
restart 3 1 0 redo 1 2
retire 0
post 1 1
take 1 1 applied
retire 1
post 2 1
take 2 1 applied
retire 2
issue 3
post 3 0
take 3 0 applied
issue 4
post 4 0
take 4 0 applied
issue 5
post 5 0
take 5 0 applied
retire 3
retire 4
retire 5
";

const TRACED: Case<'static> = Case {
    words: "run p.gp --faults f.csv --crew one --trace",
    ..RUN
};

static STRUCK_ADD: Case<'static> = Case {
    program: ADD,
    faults: "4,0,3,1\n",
    ..TRACED
};

static STRUCK_ROUTED: Case<'static> = Case {
    program: ROUTED,
    faults: "1,0,60,1\n",
    ..TRACED
};

// The run ends well, and its trace begins with this.
fn begins_with<R: Threads + Sync + AllocGlobal>(
    rt: &R,
    case: &Case<'_>,
    front: &str,
) -> Result<bool, AllocError> {
    let answer = answer_of(rt, case)?;
    Ok(answer.status == 0 && answer.error.written().starts_with(front.as_bytes()))
}

// The run ends well, and this is its trace.
fn is_traced_by<R: Threads + Sync + AllocGlobal>(
    rt: &R,
    case: &Case<'_>,
    trace: &str,
) -> Result<bool, AllocError> {
    let answer = answer_of(rt, case)?;
    Ok(answer.status == 0 && answer.error.written() == trace.as_bytes())
}

#[test]
fn traces_are_those_that_the_rules_give(rt: HostRuntime) -> Result<(), Fail> {
    assert!(rt;
        begins_with(&rt, &STRUCK_ADD, STRUCK)? && is_traced_by(&rt, &STRUCK_ROUTED, SETTLED)?
    );
    Ok(())
}
