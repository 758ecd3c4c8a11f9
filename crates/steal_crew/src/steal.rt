// The crew whose workers steal from one another.
ghost use Rattle.std.specs.Prelude.{◌≡◌, ◌+◌, ◌≤◌, ◌++◌, [], false, true, length, OnOk, OnErr, map};
ghost use Rattle.subthread.specs.Tasks.{task_of};
ghost use Rattle.steal_crew.specs.Batches.{RunsAll, IsReady};
ghost use Rattle.steal_crew.specs.Counts.{sum_of, sum_of_three};

use crate::counts::Counts;
use crew::{Crew, Inbox};
use gp_base::Seq;
use std::alloc::{AllocError, AllocFailed, Global};
use std::collections::VecDeque;
use std::thread::Threads;
use subthread::{Done, Task, Work};

/// Runs all posted tasks together by a function of its caller's, as `run_steal`, which counts how they were claimed,
/// and hands their runs back in the order of the tasks.
#[derive(Drop)]
pub struct StealCrew<'a, F> {
    inbox: Inbox<'a>,
    run_all: F,
    runs: VecDeque<Done>,
    counts: Counts,
}

impl<'a, F: Fn(Seq<Task>) -> Result<(Seq<Done>, (u64, u64, u64)), AllocError>> StealCrew<'a, F> {
    /// A crew to which nothing was posted, and which has not run out of memory, with the function that runs its tasks.
    /// Takes no memory.
    pub fn new(alloc: Global, work: &'a Work, run_all: F) -> StealCrew<'a, F>
        requires { RunsAll work.now (F.pre run_all) (F.post run_all) }
        ensures ready { ⟦<StealCrew<'a, F> as Crew>⟧.ready result }
        ensures work { ⟦<StealCrew<'a, F> as Crew>⟧.work result ≡ work.now }
        ensures out { ⟦<StealCrew<'a, F> as Crew>⟧.out result ≡ [] }
        ensures posted { ⟦<StealCrew<'a, F> as Crew>⟧.posted result ≡ [] }
        ensures failed { ⟦<StealCrew<'a, F> as Crew>⟧.failed result ≡ false }
    {
        StealCrew {
            inbox: Inbox::new(alloc, work),
            run_all,
            runs: VecDeque::new(alloc),
            counts: Counts::none(),
        }
    }

    /// How many desks were claimed by hints of a worker's own deque, by stolen hints and by sweeps.
    pub fn counts(&self) -> (u64, u64, u64)
        requires ready { ⟦<StealCrew<'a, F> as Crew>⟧.ready self.now }
        ensures most { sum_of_three result ≤ length (⟦<StealCrew<'a, F> as Crew>⟧.posted self.now) }
        ensures least { ⟦<StealCrew<'a, F> as Crew>⟧.failed self.now ≡ false → length (⟦<StealCrew<'a, F> as Crew>⟧.posted self.now) ≤ sum_of_three result + length (⟦<StealCrew<'a, F> as Crew>⟧.out self.now) }
    {
        let Counts { own, stolen, swept } = self.counts;
        (own, stolen, swept)
    }

    // Runs the tasks that wait, where no run is at hand.
    fn fill(&mut self) -> Result<(), AllocError>
        requires ready { IsReady self.old.inbox (F.pre self.old.run_all) (F.post self.old.run_all) self.old.runs.items self.old.counts }
        ensures ready { IsReady self.new.inbox (F.pre self.new.run_all) (F.post self.new.run_all) self.new.runs.items self.new.counts }
        ensures work { self.new.inbox.work ≡ self.old.inbox.work }
        ensures posted { self.new.inbox.posted ≡ self.old.inbox.posted }
        ensures out { OnOk result (map (task_of self.new.inbox.work) self.new.runs.items ++ self.new.inbox.out ≡ map (task_of self.old.inbox.work) self.old.runs.items ++ self.old.inbox.out) }
        ensures all { OnOk result (self.new.runs.items ≡ [] → self.new.inbox.out ≡ []) }
        ensures open { OnOk result (self.new.inbox.failed ≡ self.old.inbox.failed) }
        ensures fails { OnErr result (self.new.inbox.failed ≡ true) }
    {
        if !self.runs.is_empty() {
            return Ok(());
        }
        // all that was counted was posted
        let _posts = self.inbox.posts();
        let tasks = self.inbox.all();
        let answer = (self.run_all)(tasks);
        let (runs, (own, stolen, swept)) = self.inbox.noted(answer)?;
        self.runs = VecDeque::from(runs.into_vec());
        self.counts = self.counts.and(Counts { own, stolen, swept });
        Ok(())
    }
}

impl<'a, F: Fn(Seq<Task>) -> Result<(Seq<Done>, (u64, u64, u64)), AllocError>> Crew
    for StealCrew<'a, F> {
    ghost work = { λ c. c.inbox.work };

    ghost out = { λ c. map (task_of c.inbox.work) c.runs.items ++ c.inbox.out };

    ghost posted = { λ c. c.inbox.posted };

    ghost failed = { λ c. c.inbox.failed };

    ghost ready = { λ c. IsReady c.inbox (F.pre c.run_all) (F.post c.run_all) c.runs.items c.counts };

    fn post<R: Threads + Sync>(&mut self, _rt: &R, task: Task) -> Result<(), AllocFailed<Task>> {
        self.inbox.post(task)
    }

    fn next<R: Threads + Sync>(&mut self, _rt: &R) -> Result<Option<Done>, AllocError> {
        self.inbox.open()?;
        self.fill()?;
        Ok(self.runs.pop_front())
    }
}
