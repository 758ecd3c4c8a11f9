// A crew of lasting threads, with tasks of a program that does nothing.
ghost use Rattle.std.specs.Prelude.{◌≡◌, [], ◌∷◌, ◌++◌, None, Contains, IsTrue, IfOk, OnOk};
ghost use Rattle.task_code.specs.Flat.{code_of};
ghost use Rattle.task_code.specs.Reading.{instrs_of};
ghost use Rattle.subthread.specs.declared.task.Work.{Work as PlainWork};
ghost use Rattle.subthread.specs.Tasks.{Fits};

use crew::Crew;
use gp_base::{At, FreeGate, Gate, Pos, Seq, ThreadNo};
use lock_checker::check;
use pipe_crew::PipeCrew;
use record_store::{Given, Summed};
use std::alloc::{AllocError, Global};
use std::sync::atomic::{AtomicU64, Ordering};
use std::sync::{Arc, Wait};
use std::test::Fail;
use std::thread::{Threads, yield_now};
use subthread::{Done, Recheck, Task, Work};
use task_ast::{Next, SyncOp};
use task_code::lower;
use task_parser::{lex, parse};

const MOST_LOOKS: u32 = 100_000_000;

// What the tasks of the program run under.
fn idle_work(alloc: Global) -> Result<Arc<Work>, Fail> {
    let text = b"task main() { }".as_slice();
    let tokens = lex(alloc, text)?;
    let program = parse(alloc, text, &tokens)?;
    let checked = check(alloc, program)?;
    let code = lower(alloc, &checked);
    drop(checked);
    let work = Work {
        code: code?,
        feeds: Seq::new(alloc),
        turns: 1,
        recheck: Recheck::once(),
    };
    Ok(Arc::new(alloc, work)?)
}

// Whether the first task has no code, and walks are made once.
#[tactic(auto, using(crate::proofs::Idle::none_there))]
fn is_idle(work: &Work) -> bool
    ensures { IsTrue result → (work.now.recheck ≡ None) × (instrs_of (code_of work.now.code).tasks 0 ≡ []) }
{
    !work.recheck.is_on() && work.code.instrs(0).is_empty()
}

// An attempt of the program's only subthread, from a place beyond its end: of that nothing is known, so it counts as heavy.
fn start(alloc: Global, attempt: u32) -> Result<Task, AllocError>
    ensures pos { IfOk result (λ task. task.pos ≡ 0) }
    ensures attempt { IfOk result (λ task. task.attempt ≡ attempt) }
    ensures fits { IfOk result (λ task. (work : PlainWork) → work.recheck ≡ None → instrs_of (code_of work.code).tasks 0 ≡ [] → Fits work task) }
{
    let regs = Summed::plain(Seq::from_slice(alloc, &[0])?);
    Ok(Task {
        pos: Pos(0),
        thread: ThreadNo(0),
        attempt,
        begins: Next {
            sync: SyncOp::Start,
            line: 0,
        },
        at: At { task: 0, pc: 1 },
        ctl: Seq::new(alloc),
        child: None,
        given: Given {
            regs,
            joined: 0,
            bundles: Seq::new(alloc),
        },
        held: Seq::new(alloc),
        mask: 0,
    })
}

// The attempt whose run is handed back.
fn attempt_of(done: &Option<Done>) -> Option<u32> {
    match done {
        Some(done) => Some(done.task.attempt),
        None => None,
    }
}

// The attempt that comes back next, or `None` where none is out.
fn attempt_back<C: Crew, R: Threads + Sync>(rt: &R, crew: &mut C) -> Result<Option<u32>, AllocError>
    requires ready { C.ready crew.old }
    ensures ready { C.ready crew.new }
{
    let done = crew.next(rt)?;
    let attempt = attempt_of(&done);
    drop(done);
    Ok(attempt)
}

// Posts an attempt.
fn post<C: Crew, R: Threads + Sync>(
    rt: &R,
    alloc: Global,
    crew: &mut C,
    attempt: u32,
) -> Result<(), AllocError>
    requires ready { C.ready crew.old }
    requires fresh { ¬ Contains (C.posted crew.old) (0, attempt) }
    requires sound { (C.work crew.old).recheck ≡ None }
    requires idle { instrs_of (code_of (C.work crew.old).code).tasks 0 ≡ [] }
    ensures ready { C.ready crew.new }
    ensures work { C.work crew.new ≡ C.work crew.old }
    ensures posted { OnOk result (C.posted crew.new ≡ C.posted crew.old ++ (0, attempt) ∷ []) }
{
    crew.post(rt, start(alloc, attempt)?)?;
    Ok(())
}

// Which attempts come back first and second after attempts 0, 1 and 2 were posted. The third stays out.
fn two_of_three<C: Crew, R: Threads + Sync>(
    rt: &R,
    alloc: Global,
    crew: &mut C,
) -> Result<(Option<u32>, Option<u32>), AllocError>
    requires ready { C.ready crew.old }
    requires posted { C.posted crew.old ≡ [] }
    requires sound { (C.work crew.old).recheck ≡ None }
    requires idle { instrs_of (code_of (C.work crew.old).code).tasks 0 ≡ [] }
{
    post(rt, alloc, crew, 0)?;
    post(rt, alloc, crew, 1)?;
    post(rt, alloc, crew, 2)?;
    let first = attempt_back(rt, crew)?;
    let second = attempt_back(rt, crew)?;
    Ok((first, second))
}

// Which attempts come back from a crew of lasting threads, which is dropped while one is out.
fn attempts_by_threads<
    H: Threads + Wait + Clone + Send + Sync + Drop + 'static,
    G: Gate + Send + Drop + 'static,
>(
    rt: &H,
    alloc: Global,
    workers: u32,
    gate: &Arc<G>,
    work: &Arc<Work>,
) -> Result<(Option<u32>, Option<u32>), AllocError> {
    if !is_idle(work) {
        return Ok((None, None));
    }
    let mut crew = PipeCrew::new(alloc, rt.clone()?, work, workers, gate)?;
    two_of_three(rt, alloc, &mut crew)
}

// Whether all threads that had a gate have ended.
fn have_ended<G: Drop>(gate: &Arc<G>) -> bool {
    for _ in 0..MOST_LOOKS {
        if Arc::strong_count(gate) == 1 {
            return true;
        }
        yield_now();
    }
    false
}

// Holds the first task that enters until a second has entered, for so many looks at most.
#[derive(Drop)]
struct Meeting {
    entered: AtomicU64,
    met: AtomicU64,
}

impl Gate for Meeting {
    fn enter(&self, _pos: Pos) {
        if self.entered.fetch_add(1, Ordering::SeqCst) > 0 {
            return;
        }
        for _ in 0..MOST_LOOKS {
            if self.entered.load(Ordering::SeqCst) > 1 {
                self.met.store(1, Ordering::SeqCst);
                return;
            }
        }
    }
}

#[test]
fn two_tasks_meet(rt: HostRuntime) -> Result<(), Fail> {
    let alloc = rt.alloc();
    let work = idle_work(alloc)?;
    let gate = Meeting {
        entered: AtomicU64::new(0),
        met: AtomicU64::new(0),
    };
    let gate = Arc::new(alloc, gate)?;
    let (first, second) = attempts_by_threads(&rt, alloc, 2, &gate, &work)?;
    assert!(rt; first == Some(0) && second == Some(1));
    assert!(rt;
        gate.met.load(Ordering::SeqCst) == 1,
        "a second entered while the first waited"
    );
    Ok(())
}

// A crew of one worker has no thread, and one of more than 64 has as many as one of 64.
#[test]
fn the_threads_end_once_the_crew_is_dropped(rt: HostRuntime) -> Result<(), Fail> {
    let alloc = rt.alloc();
    let work = idle_work(alloc)?;
    for workers in [1, 2, 64, 1000] {
        let gate = Arc::new(alloc, FreeGate)?;
        let (first, second) = attempts_by_threads(&rt, alloc, workers, &gate, &work)?;
        assert!(rt; first == Some(0) && second == Some(1));
        assert!(rt; have_ended(&gate), "a thread has the gate still");
    }
    Ok(())
}
