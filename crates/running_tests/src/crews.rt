// Crews over tasks of one program: each hands back what was posted, once, in an order of its own.
ghost use Rattle.std.specs.Prelude.{◌≡◌, ◌<◌, ◌^◌, [], ◌∷◌, ◌++◌, length, All, Contains, IfOk, OnOk};
ghost use Rattle.subthread.specs.Tasks.{Fits};
ghost use Rattle.running_tests.specs.Named.{NamesBelow, FitsWithoutCells};
ghost use Rattle.crew.specs.Out.{AreRuns};
ghost use Rattle.steal_crew.specs.Batches.{AreCounted};

use crate::named::names_below;
use crate::outcome::passes;
use crate::programs::{ADD, code_of};
use crew::{BatchCrew, Crew, InlineCrew, MeanSteps, run_wave};
use gp_base::{At, FreeGate, Gate, Pos, Seq, ThreadNo};
use record_store::{Given, Summed};
use script_crew::ScriptCrew;
use std::alloc::{AllocError, Global};
use std::sync::atomic::{AtomicU64, Ordering};
use std::test::Fail;
use std::thread::Threads;
use steal_crew::{StealCrew, run_steal};
use subthread::{Done, Recheck, Task, Work};
use task_ast::{Next, SyncOp};

// Two threads add to one total. `main` comes to its first fork past a loop that it passes by, so a run of its beginning
// counts as heavy as long as there was none.
const LOOPING: &[u8] = b"lock tally[1]; record total[1] by tally;
task add(n) { var $t; lock tally[0]; read total[0] into $t; write total[0] = $t + n; unlock tally[0]; }
task main() { while self == 1 { } fork add(3); fork add(4); join 1; join 2; }";

// What the tasks of such a program run under.
fn work_of(alloc: Global, program: &[u8]) -> Result<Work, Fail>
    requires { length program.now < 2 ^ 32 }
{
    Ok(Work {
        code: code_of(alloc, program)?,
        feeds: Seq::new(alloc),
        turns: 100,
        recheck: Recheck::once(),
    })
}

// What the tasks of the program run under that passes a loop by.
fn adding(alloc: Global) -> Result<Work, Fail> {
    work_of(alloc, LOOPING)
}

// An attempt of the program's first subthread: `main` begins, and runs to its fork in line 3.
fn start(alloc: Global, attempt: u32) -> Result<Task, AllocError>
    ensures pos { IfOk result (λ task. task.pos ≡ 0) }
    ensures attempt { IfOk result (λ task. task.attempt ≡ attempt) }
    ensures at { IfOk result (λ task. task.at.task ≡ 1) }
    ensures fits { IfOk result FitsWithoutCells }
{
    let regs = Summed::plain(Seq::from_slice(alloc, &[0])?);
    Ok(Task {
        pos: Pos(0),
        thread: ThreadNo(0),
        attempt,
        begins: Next {
            sync: SyncOp::Start,
            line: 0,
        },
        at: At { task: 1, pc: 0 },
        ctl: Seq::new(alloc),
        child: None,
        given: Given {
            regs,
            joined: 0,
            bundles: Seq::new(alloc),
        },
        held: Seq::new(alloc),
        mask: 0,
    })
}

// The attempt whose run is handed back and ends at the fork.
fn attempt_of(done: &Option<Done>) -> Option<u32> {
    match done {
        Some(done) if done.next.line == 3 => Some(done.task.attempt),
        _ => None,
    }
}

// The attempt that comes back next and ends at the fork, or `None` where none is out.
fn attempt_back<C: Crew, R: Threads + Sync>(rt: &R, crew: &mut C) -> Result<Option<u32>, AllocError>
    requires ready { C.ready crew.old }
    ensures ready { C.ready crew.new }
{
    let done = crew.next(rt)?;
    let attempt = attempt_of(&done);
    drop(done);
    Ok(attempt)
}

// Posts an attempt.
fn post<C: Crew, R: Threads + Sync>(
    rt: &R,
    alloc: Global,
    crew: &mut C,
    attempt: u32,
) -> Result<(), AllocError>
    requires ready { C.ready crew.old }
    requires fresh { ¬ Contains (C.posted crew.old) (0, attempt) }
    requires named { NamesBelow 0 (C.work crew.old) 1 }
    ensures ready { C.ready crew.new }
    ensures work { C.work crew.new ≡ C.work crew.old }
    ensures posted { OnOk result (C.posted crew.new ≡ C.posted crew.old ++ (0, attempt) ∷ []) }
{
    crew.post(rt, start(alloc, attempt)?)?;
    Ok(())
}

// Whether these attempts come back after attempts 0 and 1 were posted, and nothing after these.
fn come_back<C: Crew, R: Threads + Sync>(
    rt: &R,
    alloc: Global,
    crew: &mut C,
    attempts: [u32; 2],
) -> Result<bool, AllocError>
    requires ready { C.ready crew.old }
    requires posted { C.posted crew.old ≡ [] }
    requires named { NamesBelow 0 (C.work crew.old) 1 }
{
    post(rt, alloc, crew, 0)?;
    post(rt, alloc, crew, 1)?;
    let first = attempt_back(rt, crew)?;
    let second = attempt_back(rt, crew)?;
    let third = attempt_back(rt, crew)?;
    Ok(first == Some(attempts[0]) && second == Some(attempts[1]) && third.is_none())
}

// Whether the attempts come back in their order from a crew that runs waves of two workers.
fn is_oldest_first_in_waves<G: Gate, R: Threads + Sync>(
    rt: &R,
    alloc: Global,
    work: &Work,
    gate: &G,
) -> Result<bool, AllocError> {
    if !names_below(work, 1, 0) {
        return Ok(false);
    }
    let mean_steps = MeanSteps::new(alloc, work);
    let run_all = |tasks: Seq<Task>| -> Result<Seq<Done>, AllocError>
        requires { All (Fits work.now) tasks }
        ensures { IfOk result (AreRuns work.entry.now tasks) }
    { run_wave(rt, alloc, work, gate, &mean_steps, 2, tasks) };
    let mut crew = BatchCrew::new(alloc, work, run_all);
    come_back(rt, alloc, &mut crew, [0, 1])
}

// Posts four attempts, and takes the first run that comes back.
fn run_four<C: Crew, R: Threads + Sync>(
    rt: &R,
    alloc: Global,
    crew: &mut C,
) -> Result<(), AllocError>
    requires ready { C.ready crew.old }
    requires posted { C.posted crew.old ≡ [] }
    requires named { NamesBelow 0 (C.work crew.old) 1 }
    ensures ready { C.ready crew.new }
{
    post(rt, alloc, crew, 0)?;
    post(rt, alloc, crew, 1)?;
    post(rt, alloc, crew, 2)?;
    post(rt, alloc, crew, 3)?;
    drop(crew.next(rt)?);
    Ok(())
}

// How four tasks are claimed by so many workers that steal from one another.
fn claims_of_four<G: Gate, R: Threads + Sync>(
    rt: &R,
    alloc: Global,
    work: &Work,
    gate: &G,
    workers: u32,
) -> Result<(u64, u64, u64), AllocError> {
    if !names_below(work, 1, 0) {
        return Ok((0, 0, 0));
    }
    let mean_steps = MeanSteps::new(alloc, work);
    let run_all = |tasks: Seq<Task>| -> Result<(Seq<Done>, (u64, u64, u64)), AllocError>
        requires { All (Fits work.now) tasks }
        ensures { IfOk result (AreCounted work.entry.now tasks) }
    { run_steal(rt, alloc, work, gate, &mean_steps, workers, tasks) };
    let mut crew = StealCrew::new(alloc, work, run_all);
    let ran = run_four(rt, alloc, &mut crew);
    ran.and(Ok(crew.counts()))
}

// Holds the first task that enters until so many have entered, for so many looks at most.
#[derive(Drop)]
struct Meeting {
    members: u64,
    entered: AtomicU64,
    met: AtomicU64,
}

const MOST_LOOKS: u32 = 100_000_000;

impl Meeting {
    // None of so many has entered.
    fn of(members: u64) -> Meeting {
        Meeting {
            members,
            entered: AtomicU64::new(0),
            met: AtomicU64::new(0),
        }
    }

    // Whether so many have entered, and all of them while the first waited.
    fn has_met(&self) -> bool {
        self.entered.load(Ordering::SeqCst) == self.members && self.met.load(Ordering::SeqCst) == 1
    }
}

impl Gate for Meeting {
    fn enter(&self, _pos: Pos) {
        if self.entered.fetch_add(1, Ordering::SeqCst) > 0 {
            return;
        }
        for _ in 0..MOST_LOOKS {
            if self.entered.load(Ordering::SeqCst) >= self.members {
                self.met.store(1, Ordering::SeqCst);
                return;
            }
        }
    }
}

// Whether a crew that runs the oldest hands back the attempts in their order.
fn is_oldest_first<R: Threads + Sync>(
    rt: &R,
    alloc: Global,
    work: &Work,
) -> Result<bool, AllocError> {
    if !names_below(work, 1, 0) {
        return Ok(false);
    }
    let gate = FreeGate;
    let mut crew = InlineCrew::new(alloc, work, &gate);
    come_back(rt, alloc, &mut crew, [0, 1])
}

#[test]
fn the_oldest_comes_back_first(rt: HostRuntime) -> Result<(), Fail> {
    let alloc = rt.alloc();
    let work = adding(alloc)?;
    let is_told = is_oldest_first(&rt, alloc, &work);
    drop(work);
    passes(is_told)
}

// Whether a crew hands back first the attempt that the script names.
fn is_as_scripted<R: Threads + Sync>(
    rt: &R,
    alloc: Global,
    work: &Work,
) -> Result<bool, AllocError> {
    if !names_below(work, 1, 0) {
        return Ok(false);
    }
    let choice = Seq::from_slice(alloc, &[3])?;
    let mut crew = ScriptCrew::new(alloc, work, choice);
    let is_told = come_back(rt, alloc, &mut crew, [1, 0])?;
    Ok(is_told && crew.posts() == 2)
}

#[test]
fn the_one_that_the_script_names_comes_back(rt: HostRuntime) -> Result<(), Fail> {
    let alloc = rt.alloc();
    let work = adding(alloc)?;
    let is_told = is_as_scripted(&rt, alloc, &work);
    drop(work);
    passes(is_told)
}

#[test]
fn two_tasks_of_a_wave_meet(rt: HostRuntime) -> Result<(), Fail> {
    let alloc = rt.alloc();
    let work = adding(alloc)?;
    let gate = Meeting::of(2);
    let is_told = is_oldest_first_in_waves(&rt, alloc, &work, &gate);
    drop(work);
    passes(Ok(gate.has_met()))?;
    passes(is_told)
}

// The first task that enters is held until all four have entered, so the other worker takes one from its deque.
#[test]
fn a_task_is_stolen_from_a_worker_that_is_held(rt: HostRuntime) -> Result<(), Fail> {
    let alloc = rt.alloc();
    let work = adding(alloc)?;
    let gate = Meeting::of(4);
    let claims = claims_of_four(&rt, alloc, &work, &gate, 2);
    drop(work);
    let (_own, stolen, _swept) = claims?;
    passes(Ok(gate.has_met() && stolen > 0))
}

#[test]
fn one_worker_claims_all_tasks_by_its_own_hints(rt: HostRuntime) -> Result<(), Fail> {
    let alloc = rt.alloc();
    let work = adding(alloc)?;
    let claims = claims_of_four(&rt, alloc, &work, &FreeGate, 1);
    drop(work);
    passes(Ok(claims? == (4, 0, 0)))
}

// So many attempts of the program's first subthread.
fn starts(alloc: Global, count: u32) -> Result<Vec<Task>, AllocError> {
    let mut tasks = Vec::new(alloc);
    for attempt in 0..count {
        tasks.push(start(alloc, attempt)?)?;
    }
    Ok(tasks)
}

// How many workers tasks from one place are worth: of 64 and of 2 where no run has gone on from there, and of 64 after
// one light run, after a heavy one beside, and after twenty more light ones.
fn worths(mean_steps: &MeanSteps, task: &Task, tasks: &[Task]) -> [u32; 5] {
    let new = mean_steps.workers(tasks, 64);
    let new_of_two = mean_steps.workers(tasks, 2);
    mean_steps.note(task, 5);
    let light = mean_steps.workers(tasks, 64);
    mean_steps.note(task, 4_000_000);
    let heavy = mean_steps.workers(tasks, 64);
    for _ in 0..20 {
        mean_steps.note(task, 5);
    }
    let again = mean_steps.workers(tasks, 64);
    [new, new_of_two, light, heavy, again]
}

// Whether three tasks are worth what they should be, where a fourth one's runs are noted.
fn are_worth(alloc: Global, work: &Work) -> Result<bool, AllocError> {
    let tasks = starts(alloc, 3)?;
    let task = start(alloc, 3)?;
    let mean_steps = MeanSteps::new(alloc, work);
    let told = worths(&mean_steps, &task, &tasks);
    drop(task);
    Ok(told == [3, 2, 1, 3, 1])
}

// New tasks that may come to a loop are worth as many workers as they are, and as may be had; light ones are worth one. A
// heavy run weighs an eighth: 500,000 steps a task, so 1,000,000 beside those of the longest, which are worth more workers
// than there are tasks.
#[test]
fn light_tasks_are_worth_one_worker(rt: HostRuntime) -> Result<(), Fail> {
    let alloc = rt.alloc();
    let work = adding(alloc)?;
    let is_told = are_worth(alloc, &work);
    drop(work);
    passes(is_told)
}

// How many workers three tasks are worth that come to a fork without a loop before it, where none has run.
fn worth_of_straight(alloc: Global, work: &Work) -> Result<u32, AllocError> {
    let tasks = starts(alloc, 3)?;
    Ok(MeanSteps::new(alloc, work).workers(&tasks, 64))
}

#[test]
fn new_tasks_without_a_loop_are_worth_one_worker(rt: HostRuntime) -> Result<(), Fail> {
    let alloc = rt.alloc();
    let work = work_of(alloc, ADD)?;
    let worth = worth_of_straight(alloc, &work);
    drop(work);
    passes(Ok(worth? == 1))
}
