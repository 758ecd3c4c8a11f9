// What every crew keeps: the tasks that wait, the pairs of all that were posted, and whether memory ran out.
ghost use Rattle.std.specs.Prelude.{◌≡◌, ◌↔◌, ◌<◌, ◌≤◌, true, false, [], ◌∷◌, ◌++◌, length, slice_index_or, All, Ok, IsErr, OnOk, OnErr, IfOk, IfErr, IfSome, IfNone};
ghost use Rattle.subthread.specs.Tasks.{Fits, IsRun, task_of};
ghost use Rattle.crew.specs.Out.{TakesOut, pair_of};

use gp_base::{Pos, Seq};
use std::alloc::{AllocError, AllocFailed, Global};
use std::collections::VecDeque;
use std::marker::Model;
use std::mem;
use subthread::{Done, Task, Work, run_task};

/// The tasks that were posted to a crew and wait, oldest first.
#[derive(Drop)]
pub struct Inbox<'a> {
    alloc: Global,
    work: &'a Work,
    waiting: VecDeque<Task>,
    posted: Vec<(Pos, u32)>,
    failed: bool,
}

impl<'a> Model for Inbox<'a> {
    ghost use Rattle.std.specs.Prelude.{All};
    ghost use Rattle.subthread.specs.Tasks.{Fits};
    ghost use Rattle.std.specs.Coded.{codes};
    ghost use Rattle.subthread.specs.contracts.task.Work as shared;
    ghost use Rattle.subthread.specs.contracts.task.Task as posted_task;
    ghost use Rattle.crew.specs.State.{CrewState};

    ghost Value = { CrewState };

    ghost coded = { Prim.hlevel (codes, shared.the_row.coded, posted_task.the_row.coded) };

    ghost view = { λ b. record { work = b.work.now; out = b.waiting.items; posted = b.posted.items; failed = b.failed } };

    ghost invariant = { λ b. All (Fits b.work.now) b.waiting.items };
}

impl<'a> Inbox<'a> {
    /// No task was posted. Takes no memory.
    pub fn new(alloc: Global, work: &'a Work) -> Inbox<'a>
        ensures { result ≡ record { work = work.now; out = []; posted = []; failed = false } }
    {
        Inbox {
            alloc,
            work,
            waiting: VecDeque::new(alloc),
            posted: Vec::new(alloc),
            failed: false,
        }
    }

    /// How many tasks were posted.
    pub fn posts(&self) -> usize
        ensures { result ≡ length self.now.posted }
    {
        self.posted.len()
    }

    /// How many tasks wait.
    pub fn len(&self) -> usize
        ensures { result ≡ length self.now.out }
    {
        self.waiting.len()
    }

    /// The error is that an earlier call ran out of memory.
    pub fn open(&self) -> Result<(), AllocError>
        ensures { IsErr result ↔ (self.now.failed ≡ true) }
    {
        if self.failed {
            return Err(AllocError);
        }
        Ok(())
    }

    /// Notes that memory ran out.
    pub fn fail(&mut self)
        ensures { self.new ≡ record self.old { failed = true } }
    {
        self.failed = true;
    }

    /// The value of an answer. Where it has none, memory ran out, which is noted.
    pub fn noted<T, E: Drop>(&mut self, answer: Result<T, E>) -> Result<T, AllocError>
        ensures value { IfOk result (λ value. answer ≡ Ok value) }
        ensures ok { OnOk result (self.new ≡ self.old) }
        ensures err { OnErr result (self.new ≡ record self.old { failed = true }) }
        ensures cause { OnErr result (IsErr answer) }
        ensures others { self.new ≡ record self.old { failed = self.new.failed } }
    {
        match answer {
            Ok(value) => Ok(value),
            Err(_) => {
                self.failed = true;
                Err(AllocError)
            }
        }
    }

    /// Puts a task after those that wait.
    pub fn post(&mut self, task: Task) -> Result<(), AllocFailed<Task>>
        requires fits { Fits self.old.work task }
        ensures ok { OnOk result (self.new ≡ record self.old { out = self.old.out ++ task ∷ []; posted = self.old.posted ++ pair_of task ∷ [] }) }
        ensures err { OnErr result (self.new ≡ record self.old { failed = true }) }
        ensures work { self.new.work ≡ self.old.work }
        ensures back { IfErr result (λ refused. refused.value ≡ task) }
        ensures stays_failed { self.old.failed ≡ true → IsErr result }
    {
        if self.failed {
            return Err(AllocFailed { value: task });
        }
        if self.posted.reserve(1).is_err() {
            self.failed = true;
            return Err(AllocFailed { value: task });
        }
        let pair = (task.pos, task.attempt);
        if let Err(refused) = self.waiting.push_back(task) {
            self.failed = true;
            return Err(refused);
        }
        self.posted.push_reserved(pair);
        Ok(())
    }

    /// Takes the task at a place out, counted from 0 at the oldest, or answers `None` past the end.
    pub fn take(&mut self, at: usize) -> Option<Task>
        ensures none { IfNone result (length self.old.out ≤ at) }
        ensures kept { IfNone result (self.new ≡ self.old) }
        ensures placed { IfSome result (λ task. task ≡ slice_index_or self.old.out at task) }
        ensures taken { IfSome result (λ task. TakesOut self.old.out task self.new.out) }
        ensures fits { IfSome result (Fits self.old.work) }
        ensures others { self.new ≡ record self.old { out = self.new.out } }
    {
        self.waiting.remove(at)
    }

    /// Takes all tasks out, in order.
    pub fn all(&mut self) -> Seq<Task>
        ensures tasks { result ≡ self.old.out }
        ensures fits { All (Fits self.old.work) result }
        ensures rest { self.new ≡ record self.old { out = [] } }
    {
        let waiting = mem::replace(&mut self.waiting, VecDeque::new(self.alloc));
        Seq::from_vec(Vec::from(waiting))
    }

    /// Takes the oldest tasks out, in order, and at most so many. The error is that memory is out.
    pub fn oldest(&mut self, most: usize) -> Result<Seq<Task>, AllocError>
        requires { 0 < most }
        ensures tasks { IfOk result (λ tasks. self.old.out ≡ tasks ++ self.new.out) }
        ensures few { IfOk result (λ tasks. length tasks ≤ most) }
        ensures some { IfOk result (λ tasks. tasks ≡ [] → self.old.out ≡ []) }
        ensures fits { IfOk result (All (Fits self.old.work)) }
        ensures rest { OnOk result (self.new ≡ record self.old { out = self.new.out }) }
        ensures err { OnErr result (self.new ≡ record self.old { failed = true }) }
    {
        if self.waiting.len() <= most {
            return Ok(self.all());
        }
        match self.waiting.split_off(most) {
            Ok(later) => {
                let first = mem::replace(&mut self.waiting, later);
                Ok(Seq::from_vec(Vec::from(first)))
            }
            Err(_) => {
                self.failed = true;
                Err(AllocError)
            }
        }
    }

    /// Runs a task in this thread. The error is that memory is out.
    pub fn run(&mut self, task: Task) -> Result<Done, AllocError>
        requires { Fits self.old.work task }
        ensures task { IfOk result (λ done. task_of self.old.work done ≡ task) }
        ensures run { IfOk result (IsRun self.old.work) }
        ensures ok { OnOk result (self.new ≡ self.old) }
        ensures err { OnErr result (self.new ≡ record self.old { failed = true }) }
    {
        let run = run_task(self.alloc, self.work, task);
        self.noted(run)
    }
}
