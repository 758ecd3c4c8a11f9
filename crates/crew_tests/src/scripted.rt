// A run by a crew whose order is written down before.
ghost use Rattle.std.specs.Prelude.{IfOk};
ghost use Rattle.subthread.specs.Tasks.{Suits};

use batch_calls::plan::Begins;
use batch_fixtures::programs::ADD;
use call_fixtures::cases::{Case, PLAIN, files_of};
use call_fixtures::plans::planned;
use crew::Crew;
use engine::{EngineStop, Report, drive};
use gp_base::{Event, MemSink, Nums, Pos, Seq};
use script_crew::ScriptCrew;
use std::alloc::{AllocError, AllocFailed, Global};
use std::test::Fail;
use std::thread::Threads;
use subthread::{Done, Recheck, Task, Work};

// A crew that notes each cell that a task is given, with the task's position.
#[derive(Drop)]
struct Noting<C> {
    crew: C,
    noted: Vec<(Pos, i64)>,
}

// Notes the cells that a task is given.
fn note(noted: &mut Vec<(Pos, i64)>, task: &Task) -> Result<(), AllocError> {
    for bundle in task.given.bundles.as_slice() {
        for cell in bundle.cells.as_slice() {
            noted.push((task.pos, *cell))?;
        }
    }
    Ok(())
}

impl<C: Crew> Crew for Noting<C> {
    ghost work = { λ c. C.work c.crew };

    ghost out = { λ c. C.out c.crew };

    ghost posted = { λ c. C.posted c.crew };

    ghost failed = { λ c. C.failed c.crew };

    ghost ready = { λ c. C.ready c.crew };

    fn post<R: Threads + Sync>(&mut self, rt: &R, task: Task) -> Result<(), AllocFailed<Task>> {
        // A note that is missed fails the test.
        let _ = note(&mut self.noted, &task);
        self.crew.post(rt, task)
    }

    fn next<R: Threads + Sync>(&mut self, rt: &R) -> Result<Option<Done>, AllocError> {
        self.crew.next(rt)
    }
}

/// Numbers that name the newest of up to 16 tasks that are out: one less than what all up to 16 divide.
pub const NEWEST: [i64; 48] = [720719; 48];

// The code of the two threads that add to one total, and what their run begins with, where these faults strike.
fn plan_of_adders(alloc: Global, faults: &str) -> Result<(Work, Begins), Fail>
    ensures { IfOk result (λ made. Suits made.0 made.1.layout made.1.inputs made.1.limits) }
{
    let case = Case {
        program: ADD,
        faults,
        ..PLAIN
    };
    let files = files_of(alloc, &case)?;
    match planned(alloc, "run p.gp --faults f.csv", files, Recheck::once())? {
        Some(plan) => Ok(plan),
        None => Err(Fail::from("the program is not to be run")),
    }
}

// The report of a run that did not stop, and wrote nothing.
fn reported(
    alloc: Global,
    ran: Result<Report, EngineStop>,
    out: &MemSink,
) -> Result<Box<Report>, Fail> {
    match ran {
        Ok(report) if out.written().is_empty() => Ok(Box::new(alloc, report)?),
        _ => Err(Fail::from("the run stopped, or wrote something")),
    }
}

// The report of the run by a crew that hands its tasks back in the order of these numbers.
fn ran_by_script<R: Threads + Sync + AllocGlobal>(
    rt: &R,
    work: &Work,
    begins: Begins,
    choice: Nums,
) -> Result<Box<Report>, Fail>
    requires { Suits work.now begins.layout begins.inputs begins.limits }
{
    let alloc = rt.alloc();
    let Begins {
        layout,
        inputs,
        faults,
        limits,
        ..
    } = begins;
    let mut out = MemSink::new(alloc, 1000, Seq::new(alloc));
    let mut crew = ScriptCrew::new(alloc, work, choice);
    let ran = drive(
        rt, alloc, work, layout, inputs, faults, limits, &mut crew, &mut out,
    );
    reported(alloc, ran, &out)
}

/// The report of the run that these faults strike, by a crew that hands its tasks back in the order of these numbers.
/// It writes nothing.
pub fn ran_in_order<R: Threads + Sync + AllocGlobal>(
    rt: &R,
    faults: &str,
    order: &[i64],
) -> Result<Box<Report>, Fail> {
    let alloc = rt.alloc();
    let choice = Seq::from_slice(alloc, order)?;
    let (work, begins) = plan_of_adders(alloc, faults)?;
    let ran = ran_by_script(rt, &work, begins, choice);
    drop(work);
    ran
}

// How many positions retired, where they did so in order.
fn retired_in_order(events: &[Event]) -> Option<u32> {
    let mut retired = 0u32;
    for event in events {
        if let Event::Retire(position) = event {
            if position.0 != retired {
                return None;
            }
            retired = retired.saturating_add(1);
        }
    }
    Some(retired)
}

// Whether this is the run of the two threads, each of whose tasks was posted once.
fn is_of_adders(report: &Report, posts: u64, noted: &[(Pos, i64)]) -> bool {
    posts == 11
        && report.subthreads == 11
        && report.records.as_slice() == [7].as_slice()
        && report.journal.restarts.is_empty()
        && noted == [(Pos(4), 0), (Pos(7), 3)].as_slice()
        && retired_in_order(report.journal.events.as_slice()) == Some(11)
}

// Whether each task of the two threads is posted once, by a crew that hands its tasks back in the order of these
// numbers.
fn posts_once<R: Threads + Sync + AllocGlobal>(
    rt: &R,
    work: &Work,
    begins: Begins,
    choice: Nums,
) -> bool
    requires { Suits work.now begins.layout begins.inputs begins.limits }
{
    let alloc = rt.alloc();
    let Begins {
        layout,
        inputs,
        faults,
        limits,
        ..
    } = begins;
    let mut out = MemSink::new(alloc, 1000, Seq::new(alloc));
    let mut crew = Noting {
        crew: ScriptCrew::new(alloc, work, choice),
        noted: Vec::new(alloc),
    };
    let ran = drive(
        rt, alloc, work, layout, inputs, faults, limits, &mut crew, &mut out,
    );
    match ran {
        Ok(report) => is_of_adders(&report, crew.crew.posts(), crew.noted.as_slice()),
        Err(_) => false,
    }
}

// The same for the run of the two threads that no fault strikes.
fn posts_each_once<R: Threads + Sync + AllocGlobal>(rt: &R) -> Result<bool, Fail> {
    let alloc = rt.alloc();
    let choice = Seq::from_slice(alloc, &[1, 0].repeat(alloc, 10)?)?;
    let (work, begins) = plan_of_adders(alloc, "")?;
    let is_told = posts_once(rt, &work, begins, choice);
    drop(work);
    Ok(is_told)
}

#[test]
fn a_scripted_order_posts_each_task_once(rt: HostRuntime) -> Result<(), Fail> {
    assert!(rt; posts_each_once(&rt)?);
    Ok(())
}

// Whether position 4 alone was struck, at front 8, and two that depend on it were redone with it.
fn is_struck_once(report: &Report) -> bool {
    let [restart] = report.journal.restarts.as_slice() else {
        return false;
    };
    restart.front == Pos(8)
        && restart.struck == Pos(4)
        && restart.attempt == 0
        && restart.redo.as_slice() == [Pos(4), Pos(6), Pos(7)].as_slice()
        && report.records.as_slice() == [7].as_slice()
        && report.subthreads == 11
        && report.unused == 0
}

#[test]
fn the_newest_first_has_the_same_restart(rt: HostRuntime) -> Result<(), Fail> {
    let report = ran_in_order(&rt, "4,0,3,1\n", &NEWEST)?;
    let is_told = is_struck_once(&report);
    drop(report);
    assert!(rt; is_told);
    Ok(())
}
