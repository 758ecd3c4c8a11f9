// The call that runs by checkpoints: the worked examples, whoever carries them out.

use batch_fixtures::programs::{ADD, ADDED, ROUTED, USAGE};
use call_fixtures::answers::{answer_over_batch, front_of, give, gives};
use call_fixtures::cases::{Call, Case, Devices, PLAIN, RUN, SOUND};
use call_fixtures::crews::{CREWS, PAIRS};
use call_fixtures::entries::enter_as_posted;
use call_fixtures::runs::{Run, come_to};
use std::alloc::AllocError;
use std::test::Fail;
use std::thread::Threads;

// The run of the two threads by checkpoints.
const CKPT: Case<'static> = Case {
    call: Call::Ckpt,
    words: "ckpt p.gp",
    program: ADD,
    ..RUN
};

static BY_CKPT: Case<'static> = CKPT;

// Runs that a fault strikes, with a checkpoint after each so many subthreads. The restarts are rollbacks. The last two
// batches settle at position 3, which is a cut for that.
static RUNS: [Run<'static>; 6] = [
    Run {
        case: Case {
            words: "p.gp --faults f.csv --every 4",
            faults: "4,0,3,1\n",
            ..CKPT
        },
        told: "records\ntotal: 7\n",
        restarts: "1: front 8 struck 4 try 0 redo 4 5 6 7\n",
        counts: [11, 1, 4, 0],
    },
    Run {
        case: Case {
            words: "p.gp --faults f.csv --every 100",
            faults: "4,0,3,1\n",
            ..CKPT
        },
        told: "records\ntotal: 7\n",
        restarts: "1: front 8 struck 4 try 0 redo 0 1 2 3 4 5 6 7\n",
        counts: [11, 1, 8, 0],
    },
    Run {
        case: Case {
            words: "p.gp --faults f.csv --every 4",
            faults: "4,0,6,1\n",
            ..CKPT
        },
        told: "records\ntotal: 7\n",
        restarts: "1: front 11 struck 4 try 0 redo 4 5 6 7 8 9 10\n",
        counts: [11, 1, 7, 0],
    },
    Run {
        case: Case {
            words: "p.gp --faults f.csv --every 1",
            faults: "1000,0,0,1\n",
            ..CKPT
        },
        told: "records\ntotal: 7\n",
        restarts: "",
        counts: [11, 0, 0, 1],
    },
    Run {
        case: Case {
            words: "p.gp --faults f.csv --every 100",
            program: ROUTED,
            faults: "1,0,60,1\n",
            ..CKPT
        },
        told: "records\nacct: 2 0 9\n",
        restarts: "1: front 3 struck 1 try 0 redo 0 1 2\n",
        counts: [6, 1, 3, 0],
    },
    Run {
        case: Case {
            words: "p.gp --faults f.csv --every 100",
            program: ROUTED,
            faults: "4,0,0,1\n",
            ..CKPT
        },
        told: "records\nacct: 2 0 9\n",
        restarts: "1: front 5 struck 4 try 0 redo 3 4\n",
        counts: [6, 1, 2, 0],
    },
];

static UNSTRUCK: Case<'static> = Case {
    output: ADDED,
    ..CKPT
};

#[test]
fn faults_roll_back_to_checkpoints(rt: HostRuntime) -> Result<(), Fail> {
    assert!(rt; come_to(&rt, &RUNS, "ckpt", "", &CREWS)? && gives(&rt, &UNSTRUCK)?);
    Ok(())
}

const NO_COMMAND: Case<'static> = Case {
    words: "",
    status: 2,
    error: USAGE,
    ..CKPT
};

static NO_COMMANDS: [Case<'static>; 7] = [
    NO_COMMAND,
    Case {
        words: "ckpt",
        ..NO_COMMAND
    },
    Case {
        words: "run p.gp",
        ..NO_COMMAND
    },
    Case {
        words: "ckpt p.gp --trace",
        ..NO_COMMAND
    },
    Case {
        words: "ckpt p.gp --every 0",
        ..NO_COMMAND
    },
    Case {
        words: "ckpt p.gp --every 100001",
        ..NO_COMMAND
    },
    Case {
        words: "ckpt p.gp --crew pipe",
        ..NO_COMMAND
    },
];

#[test]
fn words_of_no_command(rt: HostRuntime) -> Result<(), Fail> {
    assert!(rt; give(&rt, &NO_COMMANDS)?);
    Ok(())
}

static FAILING: [Case<'static>; 2] = [
    Case {
        devices: Devices { read: 1, ..SOUND },
        status: 7,
        error: "gprs: read fault p.gp\n",
        ..CKPT
    },
    Case {
        devices: Devices { output: 2, ..SOUND },
        status: 8,
        output: "output\n",
        error: "gprs: write fault\n",
        ..CKPT
    },
];

#[test]
fn devices_that_fail(rt: HostRuntime) -> Result<(), Fail> {
    assert!(rt; give(&rt, &FAILING)?);
    Ok(())
}

// The run of the batch of transfers with its 40 faults, by checkpoints, and that on one thread have the same lines and
// records.
fn keeps_records<R: Threads + Sync + AllocGlobal>(rt: &R, words: &str) -> Result<bool, AllocError> {
    let rolled = answer_over_batch(rt, &Case { words, ..BY_CKPT })?;
    let plain = answer_over_batch(
        rt,
        &Case {
            words: "one soak.gp",
            ..PLAIN
        },
    )?;
    Ok(rolled.status == 0 && plain.status == 0 && front_of(&rolled) == front_of(&plain))
}

// The same by each of these words.
fn keep_records<R: Threads + Sync + AllocGlobal>(
    rt: &R,
    rows: &[&str],
) -> Result<bool, AllocError> {
    for words in rows {
        if !keeps_records(rt, words)? {
            return Ok(false);
        }
    }
    Ok(true)
}

static BATCHES: [&str; 4] = [
    "ckpt soak.gp --faults faults.csv --crew one",
    "ckpt soak.gp --faults faults.csv --every 1 --crew wave --workers 64",
    "ckpt soak.gp --faults faults.csv --every 500 --crew board --workers 64",
    "ckpt soak.gp --faults faults.csv --crew steal --workers 64",
];

#[test]
fn a_batch_that_faults_strike_keeps_its_records(rt: HostRuntime) -> Result<(), Fail> {
    assert!(rt; keep_records(&rt, &BATCHES)?);
    Ok(())
}

static ENTERED: [Case<'static>; 2] = [
    Case {
        faults: "4,0,3,1\n",
        ..CKPT
    },
    Case {
        words: "ckpt p.gp --every 4 --faults f.csv",
        faults: "4,0,3,1\n",
        ..CKPT
    },
];

#[test]
fn tasks_enter_the_gate_as_they_are_posted(rt: HostRuntime) -> Result<(), Fail> {
    assert!(rt; enter_as_posted(&rt, &ENTERED, &PAIRS, 11)?);
    Ok(())
}
