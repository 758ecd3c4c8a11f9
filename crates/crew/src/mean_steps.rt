// How long runs take, by the place from which they go on: what a crew goes by when it shares tasks out.
ghost use Rattle.std.specs.Prelude.{◌≡◌, ◌+◌, ◌-◌, ◌/◌, ◌<◌, ◌≤◌, length, max};
ghost use Rattle.subthread.specs.Tasks.{Answers, Fits};

use gp_base::At;
use std::alloc::{AllocError, AllocFailed, Global};
use std::sync::atomic::{AtomicU64, Ordering};
use subthread::{Done, Task, Work, run_counted};
use task_ast::SyncOp;
use task_code::{Code, Does, Instr};

// What stands in the table where no run has gone on from a place. Each run makes a step at least.
const UNSEEN: u64 = 0;

// How many steps a task is reckoned to make that goes on from such a place and may come to a loop without a
// synchronisation in it: so many that what is new is shared out.
const LOOP_STEPS: u64 = 1_000_000;

// How many control steps make up for one more thread. A step takes about 35 ns, so these take about 10 ms. Measured on
// four processors: where they were idle, threads that are started and joined made up for themselves from 0.1 ms of work
// on. Where other programs kept them busy, tasks that were shared out took 2 to 4 ms however light they were, and gained
// from 10 ms on. Most batches run beside other work, so this number is that of a busy machine: an idle one forgoes some
// milliseconds by it.
const THREAD_STEPS: u64 = 300_000;

// A place from which runs go on: the mean of their steps, and how many a run makes from there at most, as far as the code
// tells.
#[derive(Drop)]
struct Place {
    mean: AtomicU64,
    most: u64,
}

/// How many control steps the runs make that go on from each place of a program, as a mean in which the last ones count
/// most. All workers of a batch share it. They read and write it in no order, so it says something else in each run;
/// nothing hangs on it but how tasks are shared out.
#[derive(Drop)]
pub struct MeanSteps {
    by_place: Vec<Vec<Place>>,
}

// The place from which the run of a task goes on once its synchronisation is done.
fn place_of(task: &Task) -> At {
    if matches!(task.begins.sync, SyncOp::Start) {
        return task.at;
    }
    At {
        task: task.at.task,
        pc: task.at.pc.saturating_add(1),
    }
}

// The most steps from a place to the next synchronisation.
fn most_from(most: &[u64], place: usize) -> u64 {
    most.get(place).copied().unwrap_or(0)
}

// The same from an instruction that stands at a place, by those of the places to which it leads.
fn most_at(most: &[u64], place: usize, does: &Does) -> u64 {
    let next = place.saturating_add(1);
    let further = match does {
        Does::Assign(..) | Does::Do(_) => most_from(most, next),
        Does::GoOn(passed) => most_from(most, next.saturating_add(*passed)),
        Does::Unless(_, passed) => {
            most_from(most, next).max(most_from(most, next.saturating_add(*passed)))
        }
        Does::Again(_, passed) => {
            most_from(most, next).max(most_from(most, place.saturating_sub(*passed)))
        }
        _ => return 0,
    };
    further.saturating_add(1).min(LOOP_STEPS)
}

// Brings the most steps from each place up to date by those of later ones, and of earlier ones as they stood.
fn pass_over(most: &mut [u64], instrs: &[Instr]) {
    for place in (0..instrs.len()).rev() {
        let steps = most_at(most, place, &instrs[place].does);
        if let Some(there) = most.get_mut(place) {
            *there = steps;
        }
    }
}

// The most steps from each instruction of a task, and from its end, to the next synchronisation, as far as the code
// tells: from where it may come to a loop without one in it, as many as such a loop counts. In the first pass each loop is
// taken for one; the second knows from where its body begins.
fn most_steps(alloc: Global, instrs: &[Instr]) -> Result<Vec<u64>, AllocError> {
    let mut most = Vec::new(alloc);
    for _ in instrs {
        most.push(LOOP_STEPS)?;
    }
    most.push(0)?;
    pass_over(&mut most, instrs);
    pass_over(&mut most, instrs);
    Ok(most)
}

// A place for each instruction of a task, and one for its end.
fn places(alloc: Global, code: &Code, task: u32) -> Result<Vec<Place>, AllocError> {
    let mut places = Vec::new(alloc);
    for most in most_steps(alloc, code.instrs(task))? {
        places.push(Place {
            mean: AtomicU64::new(UNSEEN),
            most: most.max(1),
        })?;
    }
    Ok(places)
}

// The places of all tasks.
fn all_places(alloc: Global, code: &Code) -> Result<Vec<Vec<Place>>, AllocError> {
    let mut by_place = Vec::new(alloc);
    for task in 0..u32::MAX {
        if code.start(task).is_none() {
            break;
        }
        by_place.push(places(alloc, code, task)?)?;
    }
    Ok(by_place)
}

/// How many workers tasks are worth that make so many steps together, of which the longest makes so many: one, and
/// another for each thread's worth of steps beside those of the longest, which is the most that sharing can save.
pub fn worth(sum: u64, longest: u64) -> u64
    ensures { result ≡ 1 + (sum - longest) / THREAD_STEPS }
{
    sum.saturating_sub(longest) / THREAD_STEPS + 1
}

impl MeanSteps {
    /// No run has gone on from any place of the work's program. Where memory is out the table has no place, and each
    /// stays as one from which none has.
    pub fn new(alloc: Global, work: &Work) -> MeanSteps {
        let by_place = match all_places(alloc, &work.code) {
            Ok(by_place) => by_place,
            Err(_) => Vec::new(alloc),
        };
        MeanSteps { by_place }
    }

    // What stands of a place.
    fn at(&self, at: At) -> Option<&Place> {
        self.by_place.get(at.task as usize)?.get(at.pc as usize)
    }

    /// How many steps the run of a task is reckoned to make: 1 at least. Where none has gone on from its place, these are
    /// the most that the code allows, or those of a loop.
    pub fn reckoned(&self, task: &Task) -> u64 {
        match self.at(place_of(task)) {
            Some(place) => match place.mean.load(Ordering::SeqCst) {
                UNSEEN => place.most,
                steps => steps,
            },
            None => LOOP_STEPS,
        }
    }

    // How many steps these tasks are reckoned to make together.
    fn sum(&self, tasks: &[Task]) -> u64 {
        let mut sum = 0u64;
        for task in tasks {
            sum = sum.saturating_add(self.reckoned(task));
        }
        sum
    }

    /// Notes that the run of a task like this one, from the same place, made so many steps. The first run is the mean
    /// of its place; each later one counts an eighth in it.
    pub fn note(&self, task: &Task, steps: u64) {
        if let Some(place) = self.at(place_of(task)) {
            let next = match place.mean.load(Ordering::SeqCst) {
                UNSEEN => steps,
                last => last.saturating_sub(last / 8).saturating_add(steps / 8),
            };
            place.mean.store(next.max(1), Ordering::SeqCst);
        }
    }

    /// How many workers these tasks are worth, at most so many: one where the last runs from the same places were
    /// light, and more the more steps lie beside those of the longest task. Tasks that go on from where none has count
    /// as heavy where they may come to a loop.
    pub fn workers(&self, tasks: &[Task], most: u32) -> u32
        ensures some { 1 ≤ result }
        ensures most { result ≤ max 1 most }
        ensures tasks { result ≤ max 1 (length tasks.now) }
    {
        if tasks.len() < 2 {
            return 1;
        }
        let mut longest = 0u64;
        for task in tasks {
            longest = longest.max(self.reckoned(task));
        }
        let most = (most as usize).min(tasks.len()).max(1);
        worth(self.sum(tasks), longest).min(most as u64) as u32
    }

    /// How many of these tasks, from the last one back, make one of so many parts that take about as long: one at
    /// least, where there is one.
    pub fn part(&self, tasks: &[Task], parts: u64) -> usize
        requires { 0 < parts }
    {
        let share = self.sum(tasks) / parts;
        let mut steps = 0u64;
        let mut size = 0usize;
        for task in tasks.iter().rev() {
            let next = self.reckoned(task);
            if size > 0 && steps.saturating_add(next / 2) > share {
                break;
            }
            steps = steps.saturating_add(next);
            size = size.saturating_add(1);
        }
        size
    }
}

/// Runs a task, and notes how many steps its run made. The error is that memory is out, and has the task as it was.
pub fn run_noted(
    alloc: Global,
    work: &Work,
    mean_steps: &MeanSteps,
    task: Task,
) -> Result<Done, AllocFailed<Task>>
    requires { Fits work.now task }
    ensures { Answers work.now task result }
{
    let mut steps = 0;
    let done = run_counted(alloc, work, task, &mut steps)?;
    mean_steps.note(&done.task, steps);
    Ok(done)
}
