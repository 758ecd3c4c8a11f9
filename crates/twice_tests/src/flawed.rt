// Runs on a machine that errs in walks, by the calls that the program makes.
ghost use Rattle.std.specs.Prelude.{◌≡◌, IfOk};
ghost use Rattle.subthread.specs.meaning.Flaws.{Spares};

use crate::disturbed::files_of;
use batch_fixtures::files::words_of;
use batch_fixtures::programs::{ADD, ADDED};
use gp_base::{Footprint, FreeGate, MemShelf, MemSink, Pos, Seq};
use std::alloc::{AllocError, Global};
use std::test::Fail;
use std::thread::Threads;
use subthread::{Flaw, Made};
use task_ast::{Next, SyncOp};
use twice_calls::{twice_log_run, twice_run};

const ADD_LOG: &str =
    "0 7 ; 0 ; ;\n1 7 ; 0 ; 0 0 ;\n2 7 ; 0 0 ; ;\n3 7 ; 0 ; 0 0 ;\n4 7 ; 0 0 ; ; 0 3\n5 7 ; 0 0 ; ;\n6 7 ; 0 0 ; ;\n7 7 ; 0 3 ; ; 0 7\n8 7 ; 0 ; ;\n9 7 ; 0 3 ; ;\n10 7 ; 0 ; ;\n";

// A flaw of this walk of the first attempt of position 0: it ends its thread, at an instruction that has the walk's number.
fn flaw(alloc: Global, walk: u32) -> Flaw
    ensures walk { result.walk ≡ walk }
    ensures made { result.made.pc ≡ walk }
{
    let made = Made {
        pc: walk as usize,
        ctl: Seq::new(alloc),
        regs: Seq::new(alloc),
        child: Seq::new(alloc),
        writes: Seq::new(alloc),
        lines: Seq::new(alloc),
        next: Next {
            sync: SyncOp::End,
            line: 0,
        },
        foot: Footprint {
            reads: Seq::new(alloc),
            writes: Seq::new(alloc),
        },
    };
    Flaw {
        pos: Pos(0),
        attempt: 0,
        walk,
        made,
    }
}

// A machine that errs in so many walks of position 0, the first ones, in each otherwise.
fn machine(alloc: Global, walks: u32) -> Result<Seq<Flaw>, AllocError>
    ensures { IfOk result Spares }
{
    let mut flaws = Seq::new(alloc);
    'adding: for walk in 0..walks {
        flaws.push(flaw(alloc, walk))?;
    }
    Ok(flaws)
}

// What a call answered, and what its sinks took.
#[derive(Drop)]
struct Answer {
    status: u8,
    output: MemSink,
    error: MemSink,
}

// What a call by these words over the two threads that add answers on a machine that errs in so many walks.
fn answer_on<R: Threads + Sync + AllocGlobal>(
    rt: &R,
    words: &str,
    walks: u32,
) -> Result<Box<Answer>, AllocError> {
    let alloc = rt.alloc();
    let is_log = words.starts_with("log");
    let words = words_of(alloc, words)?;
    let flaws = machine(alloc, walks)?;
    let mut shelf = MemShelf::new(alloc, files_of(alloc, ADD)?, Seq::new(alloc));
    let mut output = MemSink::new(alloc, 1000, Seq::new(alloc));
    let mut error = MemSink::new(alloc, 1000, Seq::new(alloc));
    let (out, err) = (&mut output, &mut error);
    let outcome = if is_log {
        twice_log_run(rt, &words, &mut shelf, flaws, out, err, &FreeGate)
    } else {
        twice_run(rt, &words, &mut shelf, flaws, out, err, &FreeGate)
    };
    drop(words);
    drop(shelf);
    let answer = Answer {
        status: outcome.status,
        output,
        error,
    };
    Ok(Box::new(alloc, answer)?)
}

// Fails unless such a call answers this.
fn answers<R: Threads + Sync + AllocGlobal>(
    rt: &R,
    words: &str,
    walks: u32,
    status: u8,
    output: &str,
    error: &str,
) -> Result<(), Fail> {
    let answer = answer_on(rt, words, walks)?;
    let is_so = answer.status == status
        && answer.output.written() == output.as_bytes()
        && answer.error.written() == error.as_bytes();
    if is_so {
        Ok(())
    } else {
        Err(Fail::from("the call answered something else"))
    }
}

#[test]
fn a_walk_that_differs_is_put_right(rt: HostRuntime) -> Result<(), Fail> {
    let line = "gprs_twice: differed 1, last 0\n";
    answers(&rt, "run p.gp", 1, 0, ADDED, line)?;
    answers(&rt, "one p.gp", 1, 0, ADDED, line)?;
    answers(&rt, "log p.gp", 1, 0, ADDED, ADD_LOG)
}

#[test]
fn walks_that_are_all_unlike_stop_the_run(rt: HostRuntime) -> Result<(), Fail> {
    let lines = "gprs_twice: position 0 could not be agreed on\ngprs_twice: differed 1, last 0\n";
    answers(&rt, "run p.gp", 2, 1, "output\n", lines)?;
    answers(&rt, "one p.gp", 2, 1, "output\n", lines)?;
    answers(&rt, "log p.gp", 2, 1, "output\n", "")
}

// What tells of walks that differed does not stand behind a trace.
#[test]
fn nothing_stands_behind_a_trace(rt: HostRuntime) -> Result<(), Fail> {
    let sound = answer_on(&rt, "run p.gp --crew one --trace", 0)?;
    let flawed = answer_on(&rt, "run p.gp --crew one --trace", 1)?;
    let is_same = flawed.status == 0 && flawed.error.written() == sound.error.written();
    if is_same && !sound.error.written().is_empty() {
        Ok(())
    } else {
        Err(Fail::from("the trace is another one"))
    }
}
