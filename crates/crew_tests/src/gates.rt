// Runs of which two tasks, or three, are at a gate at the same time. No clause says that two threads run, nor that no more
// do than were asked for.

use call_fixtures::answers::answer_through;
use call_fixtures::cases::{Call, Case, PLAIN, RUN};
use gp_base::{Gate, Pos};
use std::alloc::AllocError;
use std::sync::atomic::{AtomicU64, Ordering};
use std::test::Fail;
use std::thread::Threads;

// How often a gate looks before it lets a task pass that it holds: where others are to come, for seconds, since on a
// machine with other work they may be late.
fn looks(are_to: bool) -> u32 {
    if are_to { 4_000_000_000 } else { 50_000_000 }
}

/// A gate that holds the first task that enters of positions 2 and 3 until the other has entered too, or until it has
/// looked often enough.
#[derive(Drop)]
pub struct Meeting {
    entered: AtomicU64,
    met: AtomicU64,
    looks: u32,
}

impl Meeting {
    /// No task has entered; two are to meet, or are not.
    pub fn new(are_to: bool) -> Meeting {
        Meeting {
            entered: AtomicU64::new(0),
            met: AtomicU64::new(0),
            looks: looks(are_to),
        }
    }

    /// Whether the second task entered while the first was held.
    pub fn has_met(&self) -> bool {
        self.met.load(Ordering::SeqCst) == 1
    }
}

impl Gate for Meeting {
    fn enter(&self, pos: Pos) {
        if pos.0 != 2 && pos.0 != 3 {
            return;
        }
        if self.entered.fetch_add(1, Ordering::SeqCst) > 0 {
            return;
        }
        for _ in 0..self.looks {
            if self.entered.load(Ordering::SeqCst) > 1 {
                self.met.store(1, Ordering::SeqCst);
                return;
            }
        }
    }
}

/// Two threads that add to one total. Positions 2 and 3 are ready at once, the first thread and `main` once it has forked the second, and come to a loop; no run
/// has gone on from where they do, so they count as heavy.
pub const LOOPED_ADD: &str = "lock tally[1];
record total[1] by tally;
task add(n) {
  var k, $t;
  while k < 2 { k = k + 1; }
  lock tally[0];
  read total[0] into $t;
  write total[0] = $t + n;
  unlock tally[0];
}
task main() {
  var w;
  fork add(3);
  fork add(4);
  while w < 2 { w = w + 1; }
  join 1;
  join 2;
}
";

/// Positions 4, 5 and 6 are ready at once and come to a loop: the first thread once it has the lock, the second one, and `main` once it has forked the third. No
/// run has gone on from where they do, so they count as heavy.
pub const THREE: &str = "lock door[1];
task first() { var k; lock door[0]; while k < 2 { k = k + 1; } unlock door[0]; }
task second() { var k; while k < 2 { k = k + 1; } }
task third() { }
task main() { var w; fork first(); fork second(); fork third(); while w < 2 { w = w + 1; } join 1; join 2; join 3; }
";

/// A gate that holds each task of positions 4, 5 and 6 until all three are in, or until it has looked often enough.
#[derive(Drop)]
pub struct Crowd {
    inside: AtomicU64,
    told: AtomicU64,
    looks: u32,
}

impl Crowd {
    /// No task is in; three are to be in at once, or are not.
    pub fn new(are_to: bool) -> Crowd {
        Crowd {
            inside: AtomicU64::new(0),
            told: AtomicU64::new(0),
            looks: looks(are_to),
        }
    }

    /// Whether three tasks were in at once.
    pub fn is_told(&self) -> bool {
        self.told.load(Ordering::SeqCst) == 1
    }

    // Waits until three were in at once, for so many looks at most.
    fn hold(&self) {
        for _ in 0..self.looks {
            if self.is_told() {
                return;
            }
        }
    }
}

impl Gate for Crowd {
    fn enter(&self, pos: Pos) {
        if pos.0 < 4 || pos.0 > 6 {
            return;
        }
        if self.inside.fetch_add(1, Ordering::SeqCst) > 1 {
            self.told.store(1, Ordering::SeqCst);
        }
        self.hold();
        let _ = self.inside.fetch_sub(1, Ordering::SeqCst);
    }
}

// Whether the run of each case ends well, and two of its tasks meet exactly where they are to.
fn meet<R: Threads + Sync + AllocGlobal>(
    rt: &R,
    cases: &[Case<'_>],
    are_to: bool,
) -> Result<bool, AllocError> {
    for case in cases {
        let gate = Meeting::new(are_to);
        let answer = answer_through(rt, case, &gate)?;
        if answer.status != 0 || gate.has_met() != are_to {
            return Ok(false);
        }
    }
    Ok(true)
}

const ADDERS: Case<'static> = Case {
    program: LOOPED_ADD,
    ..RUN
};

// The rows of the first two positions of the log of `LOOPED_ADD`.
const FIRST_TWO: &str = "0 7 ; 0 ; ;\n1 7 ; 0 ; 0 0 ;\n";

static PAIRS: [Case<'static>; 6] = [
    Case {
        words: "run p.gp --crew wave --workers 2",
        ..ADDERS
    },
    Case {
        words: "run p.gp --crew board --workers 2",
        ..ADDERS
    },
    Case {
        words: "run p.gp --crew steal --workers 2",
        ..ADDERS
    },
    Case {
        call: Call::Ckpt,
        words: "ckpt p.gp --crew wave --workers 2",
        ..ADDERS
    },
    Case {
        call: Call::Log,
        words: "log p.gp --crew wave --workers 2",
        ..ADDERS
    },
    Case {
        call: Call::Resume,
        words: "resume p.gp t.txt",
        trace: FIRST_TWO,
        ..ADDERS
    },
];

// The only thread takes a lock twice, so no position can run beside another.
const ONE_THREAD: &str = "lock door[1];
task main() { lock door[0]; unlock door[0]; lock door[0]; unlock door[0]; }
";

static ALONE: [Case<'static>; 5] = [
    Case {
        words: "run p.gp --crew one",
        ..ADDERS
    },
    Case {
        words: "run p.gp --crew wave --workers 1",
        ..ADDERS
    },
    Case {
        words: "run p.gp --crew board --workers 1",
        ..ADDERS
    },
    Case {
        words: "run p.gp --crew steal --workers 1",
        ..ADDERS
    },
    Case {
        call: Call::Resume,
        words: "resume p.gp t.txt",
        program: ONE_THREAD,
        trace: "",
        ..RUN
    },
];

#[test]
fn two_tasks_meet_where_two_workers_run_them(rt: HostRuntime) -> Result<(), Fail> {
    assert!(rt; meet(&rt, &PAIRS, true)?);
    assert!(rt; meet(&rt, &ALONE, false)?);
    Ok(())
}

// Whether the run by each of these words ends well, and three of its tasks are in at once exactly where they are to be.
fn crowds<R: Threads + Sync + AllocGlobal>(
    rt: &R,
    rows: &[&str],
    are_to: bool,
) -> Result<bool, AllocError> {
    for words in rows {
        let gate = Crowd::new(are_to);
        let case = Case {
            words,
            program: THREE,
            ..PLAIN
        };
        let answer = answer_through(rt, &case, &gate)?;
        if answer.status != 0 || gate.is_told() != are_to {
            return Ok(false);
        }
    }
    Ok(true)
}

static OF_TWO: [&str; 3] = [
    "run p.gp --crew wave --workers 2",
    "run p.gp --crew board --workers 2",
    "run p.gp --crew steal --workers 2",
];

static OF_MANY: [&str; 3] = [
    "run p.gp --crew wave --workers 64",
    "run p.gp --crew board --workers 64",
    "run p.gp --crew steal --workers 64",
];

#[test]
fn no_more_tasks_run_at_once_than_there_are_workers(rt: HostRuntime) -> Result<(), Fail> {
    assert!(rt; crowds(&rt, &OF_MANY, true)?);
    assert!(rt; crowds(&rt, &OF_TWO, false)?);
    Ok(())
}
