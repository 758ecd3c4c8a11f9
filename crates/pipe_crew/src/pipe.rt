// A crew of lasting threads.
ghost use Rattle.std.specs.Prelude.{◌≡◌, ◌+◌, ◌++◌, ◌<◌, ◌≤◌, ◌↔◌, [], ◌∷◌, length, max, false, true, None, All, IsNone, IfOk, OnOk, OnErr, IfSome, IfNone};
ghost use Rattle.std.specs.List.{flat_map};
ghost use Rattle.std.specs.Arc.{arc_value};
ghost use Rattle.desk_board.specs.Held.{about, hand};
ghost use Rattle.subthread.specs.Tasks.{Fits, IsRun, task_of};
ghost use Rattle.crew.specs.Out.{TakesOut};
ghost use Rattle.pipe_crew.specs.inner.Flights.{Stands, IsFlight, IsBack, left_in, passes_of};
ghost use Rattle.pipe_crew.specs.inner.Flying.{AreFlying, left_all, KeepsPosts};

use crate::crossing::{sent, shared};
use crate::enter::Enter;
use crate::flight::{Flight, launch};
use crate::load::Load;
use crate::messages::{Message, serve};
use crew::{Crew, Inbox, MeanSteps, run_noted};
use crossbeam_channel::{Receiver, Sender};
use desk_board::{Board, Pass};
use gp_base::Gate;
use std::alloc::{AllocError, AllocFailed, Global};
use std::collections::VecDeque;
use std::sync::{Arc, Wait};
use std::thread;
use std::thread::Threads;
use subthread::{Done, Task, Work};

// The most tasks of a board.
const MOST_TASKS: usize = 65_536;

// The most workers: each has a pass of its own, and the first pass has so many shares.
const MOST_WORKERS: u32 = 64;

/// Runs the posted tasks over boards that lasting threads share with the calling one, and hands their runs back in the
/// order of the posts, each as soon as it and all before it are done. Where the tasks that wait are worth one worker by
/// the steps of the last runs, the calling thread runs the oldest itself. The threads get the boards over a channel,
/// and end once the crew is dropped; nobody joins them. A call may wait for a thread that has drawn a task.
#[derive(Drop)]
pub struct PipeCrew<'a, H, G> {
    alloc: Global,
    rt: H,
    gate: Arc<G>,
    mean_steps: Arc<MeanSteps>,
    // what the threads run tasks under
    work: &'a Arc<Work>,
    inbox: Inbox<'a>,
    ghost same: { inbox.work ≡ arc_value work.now },
    load: Load,
    to: Sender<Message<Task>>,
    // how many were started: a board has at most so many passes beside that of the calling thread
    threads: usize,
    // the board whose runs are handed back, and those that were launched after it, oldest first
    first: Option<Flight>,
    behind: VecDeque<Flight>,
}

// Starts a lasting thread, and answers whether one could be made. The error is that memory is out.
fn start<H: Threads + Wait + Clone + Send + Sync + Drop + 'static, G: Gate + Send + Drop + 'static>(
    rt: &H,
    alloc: Global,
    gate: &Arc<G>,
    mean_steps: &Arc<MeanSteps>,
    from: &Receiver<Message<Task>>,
) -> Result<bool, AllocError> {
    shared::<Work>();
    sent::<Work>();
    shared::<MeanSteps>();
    sent::<MeanSteps>();
    shared::<Board<Task>>();
    sent::<Board<Task>>();
    sent::<Pass<Task>>();
    sent::<Arc<Work>>();
    sent::<Arc<MeanSteps>>();
    sent::<Arc<Board<Task>>>();
    sent::<Message<Task>>();
    let theirs = rt.clone()?;
    let gate = Arc::try_clone(gate)?;
    let mean_steps = Arc::try_clone(mean_steps)?;
    let from = from.clone()?;
    let thread = thread::spawn(rt, move || {
        serve(&theirs, alloc, &*gate, &mean_steps, from)
    });
    Ok(thread.is_ok())
}

// Starts a lasting thread less than workers, and at most 63. It answers what they get boards by, and how many could be
// made. The error is that memory is out.
fn start_all<
    H: Threads + Wait + Clone + Send + Sync + Drop + 'static,
    G: Gate + Send + Drop + 'static,
>(
    rt: &H,
    alloc: Global,
    gate: &Arc<G>,
    mean_steps: &Arc<MeanSteps>,
    workers: u32,
) -> Result<(Sender<Message<Task>>, usize), AllocError>
    ensures { IfOk result (λ started. started.1 + 1 ≤ max 1 workers) }
{
    let (to, from) = crossbeam_channel::unbounded(alloc)?;
    let mut threads = 0usize;
    for _started in 1..workers.min(MOST_WORKERS) {
        if start(rt, alloc, gate, mean_steps, &from)? {
            threads = threads.saturating_add(1);
        }
    }
    Ok((to, threads))
}

impl<
    'a,
    H: Threads + Wait + Clone + Send + Sync + Drop + 'static,
    G: Gate + Send + Drop + 'static,
> PipeCrew<'a, H, G> {
    /// A crew to which nothing was posted, with one lasting thread less than workers (64 where that is more), so a board
    /// of it has at most as many passes as workers, that of the calling thread among them. A thread that can't be
    /// started is missed by nobody: the others do its work. The error is that memory is out.
    pub fn new(
        alloc: Global,
        rt: H,
        work: &'a Arc<Work>,
        workers: u32,
        gate: &Arc<G>,
    ) -> Result<PipeCrew<'a, H, G>, AllocError>
        ensures ready { IfOk result (λ c. ⟦<PipeCrew<'a, H, G> as Crew>⟧.ready c) }
        ensures work { IfOk result (λ c. ⟦<PipeCrew<'a, H, G> as Crew>⟧.work c ≡ arc_value work.now) }
        ensures out { IfOk result (λ c. ⟦<PipeCrew<'a, H, G> as Crew>⟧.out c ≡ []) }
        ensures posted { IfOk result (λ c. ⟦<PipeCrew<'a, H, G> as Crew>⟧.posted c ≡ []) }
        ensures failed { IfOk result (λ c. ⟦<PipeCrew<'a, H, G> as Crew>⟧.failed c ≡ false) }
        ensures passes { IfOk result (λ c. c.threads + 1 ≤ max 1 workers) }
    {
        let mean_steps = Arc::new(alloc, MeanSteps::new(alloc, work))?;
        let (to, threads) = start_all(&rt, alloc, gate, &mean_steps, workers)?;
        Ok(PipeCrew {
            alloc,
            gate: Arc::try_clone(gate)?,
            mean_steps,
            rt,
            work,
            inbox: Inbox::new(alloc, work),
            load: Load::none(),
            to,
            threads,
            first: None,
            behind: VecDeque::new(alloc),
        })
    }
}

impl<'a, H: Wait, G: Enter> PipeCrew<'a, H, G> {
    // How many threads get a pass of the next board, where its tasks are worth so many: at most so many, and none that
    // has a message waiting.
    fn helpers(&self, worth: u64, most: usize) -> u32
        ensures few { result ≤ 63 }
        ensures most { result ≤ most }
        ensures threads { result ≤ self.now.threads }
    {
        let idle = self.threads.saturating_sub(self.to.len());
        let most = most.min(idle).min(MOST_WORKERS as usize - 1);
        worth.min(most as u64) as u32
    }

    // Puts the oldest tasks that wait on a board, which so many threads work beside this one.
    fn launch(&mut self, helpers: u32) -> Result<Flight, AllocError>
        requires helpers { (helpers ≤ 63) × (helpers ≤ self.old.threads) }
        requires some { 0 < length self.old.inbox.out }
        ensures flight { IfOk result (IsFlight self.old.inbox.work (self.old.threads + 1)) }
        ensures out { IfOk result (λ flight. self.old.inbox.out ≡ left_in flight ++ self.new.inbox.out) }
        ensures boards { (self.new.first ≡ self.old.first) × (self.new.behind ≡ self.old.behind) }
        ensures posts { KeepsPosts self.old.inbox self.new.inbox }
        ensures threads { self.new.threads ≡ self.old.threads }
        ensures open { OnOk result (self.new.inbox.failed ≡ self.old.inbox.failed) }
        ensures fails { OnErr result (self.new.inbox.failed ≡ true) }
    {
        let tasks = self.inbox.oldest(MOST_TASKS)?;
        self.load = self
            .load
            .without(&self.mean_steps, tasks.as_slice(), self.inbox.len());
        let flight = launch(&self.rt, self.alloc, &self.to, self.work, helpers, tasks);
        self.inbox.noted(flight)
    }

    // Puts the tasks that wait on a board after the others, where they are worth it.
    fn follow(&mut self) -> Result<(), AllocError>
        requires fly { All (IsFlight self.old.inbox.work (self.old.threads + 1)) self.old.behind.items }
        ensures fly { All (IsFlight self.new.inbox.work (self.new.threads + 1)) self.new.behind.items }
        ensures out { OnOk result (flat_map left_in self.new.behind.items ++ self.new.inbox.out ≡ flat_map left_in self.old.behind.items ++ self.old.inbox.out) }
        ensures first { self.new.first ≡ self.old.first }
        ensures posts { KeepsPosts self.old.inbox self.new.inbox }
        ensures threads { self.new.threads ≡ self.old.threads }
        ensures open { OnOk result (self.new.inbox.failed ≡ self.old.inbox.failed) }
        ensures fails { OnErr result (self.new.inbox.failed ≡ true) }
    {
        let helpers = self.helpers(self.load.in_all(), self.inbox.len());
        if helpers == 0 {
            return Ok(());
        }
        let flight = self.launch(helpers)?;
        let put = self.behind.push_back(flight);
        self.inbox.noted(put)
    }

    // Runs a task in this thread, and notes how many steps its run made.
    fn run_here(&mut self, task: Task) -> Result<Done, AllocError>
        requires { Fits self.old.inbox.work task }
        ensures task { IfOk result (λ done. task_of self.old.inbox.work done ≡ task) }
        ensures run { IfOk result (IsRun self.old.inbox.work) }
        ensures boards { (self.new.first ≡ self.old.first) × (self.new.behind ≡ self.old.behind) }
        ensures inbox { OnOk result (self.new.inbox ≡ self.old.inbox) }
        ensures threads { self.new.threads ≡ self.old.threads }
        ensures fails { OnErr result (self.new.inbox ≡ record self.old.inbox { failed = true }) }
    {
        let run = run_noted(self.alloc, self.work, &self.mean_steps, task);
        self.inbox.noted(run)
    }

    // Runs the oldest task that waits in this thread.
    fn run_oldest(&mut self) -> Result<Option<Done>, AllocError>
        ensures boards { (self.new.first ≡ self.old.first) × (self.new.behind ≡ self.old.behind) }
        ensures posts { KeepsPosts self.old.inbox self.new.inbox }
        ensures threads { self.new.threads ≡ self.old.threads }
        ensures idle { IfOk result (λ done. IsNone done ↔ (self.old.inbox.out ≡ [])) }
        ensures empty { IfOk result (λ done. IfNone done (self.new.inbox.out ≡ [])) }
        ensures taken { IfOk result (λ done. IfSome done (λ run. TakesOut self.old.inbox.out (task_of self.old.inbox.work run) self.new.inbox.out)) }
        ensures run { IfOk result (λ done. IfSome done (IsRun self.old.inbox.work)) }
        ensures open { OnOk result (self.new.inbox.failed ≡ self.old.inbox.failed) }
        ensures fails { OnErr result (self.new.inbox.failed ≡ true) }
    {
        let Some(task) = self.inbox.take(0) else {
            return Ok(None);
        };
        let steps = self.mean_steps.reckoned(&task);
        self.load.take(steps);
        self.gate.enter_here(task.pos);
        let done = self.run_here(task)?;
        Ok(Some(done))
    }

    // Waits until the oldest run of a board is back, and works meanwhile.
    fn bring_back(&mut self, flight: &mut Flight) -> Result<(), AllocError>
        requires flight { IsFlight self.old.inbox.work (self.old.threads + 1) flight.old }
        requires fly { All (IsFlight self.old.inbox.work (self.old.threads + 1)) self.old.behind.items }
        ensures stands { Stands flight.new }
        ensures board { flight.new.board ≡ flight.old.board }
        ensures share { (hand flight.new.pass).share ≡ (hand flight.old.pass).share }
        ensures taken { flight.new.taken ≡ flight.old.taken }
        ensures back { OnOk result (IsBack flight.new) }
        ensures first { self.new.first ≡ self.old.first }
        ensures fly { All (IsFlight self.new.inbox.work (self.new.threads + 1)) self.new.behind.items }
        ensures out { OnOk result (flat_map left_in self.new.behind.items ++ self.new.inbox.out ≡ flat_map left_in self.old.behind.items ++ self.old.inbox.out) }
        ensures posts { KeepsPosts self.old.inbox self.new.inbox }
        ensures threads { self.new.threads ≡ self.old.threads }
        ensures open { OnOk result (self.new.inbox.failed ≡ self.old.inbox.failed) }
        ensures fails { OnErr result (self.new.inbox.failed ≡ true) }
    {
        if flight.is_back() {
            return Ok(());
        }
        self.follow()?;
        let work: &Work = self.work;
        flight.help(&self.rt, self.alloc, work, &*self.gate, &self.mean_steps);
        Ok(())
    }

    // Takes the board whose runs are handed back, or puts the tasks that wait on one; `None` where they are worth the
    // calling thread alone.
    fn take_first(&mut self) -> Result<Option<Flight>, AllocError>
        requires fly { AreFlying self.old.inbox.work (self.old.threads + 1) self.old.inbox.failed self.old.first self.old.behind.items }
        requires open { self.old.inbox.failed ≡ false }
        ensures none { self.new.first ≡ None }
        ensures flies { IfOk result (λ found. IfSome found (IsFlight self.old.inbox.work (self.old.threads + 1))) }
        ensures fly { All (IsFlight self.old.inbox.work (self.old.threads + 1)) self.new.behind.items }
        ensures alone { IfOk result (λ found. found ≡ None → self.new.behind.items ≡ []) }
        ensures out { IfOk result (λ found. left_all self.old.first self.old.behind.items ++ self.old.inbox.out ≡ left_all found self.new.behind.items ++ self.new.inbox.out) }
        ensures posts { KeepsPosts self.old.inbox self.new.inbox }
        ensures threads { self.new.threads ≡ self.old.threads }
        ensures open { OnOk result (self.new.inbox.failed ≡ self.old.inbox.failed) }
        ensures fails { OnErr result (self.new.inbox.failed ≡ true) }
    {
        if let Some(flight) = self.first.take() {
            return Ok(Some(flight));
        }
        let others = self.inbox.len().saturating_sub(1);
        let helpers = self.helpers(self.load.beside_one(), others);
        if helpers == 0 {
            return Ok(None);
        }
        let flight = self.launch(helpers)?;
        Ok(Some(flight))
    }

    // Makes a board the first again, or the next one, where all its runs were taken.
    fn put_first(&mut self, flight: Flight)
        requires stands { Stands flight }
        requires with { (about (arc_value flight.board)).with ≡ self.old.inbox.work }
        requires few { passes_of flight ≤ self.old.threads + 1 }
        requires fly { All (IsFlight self.old.inbox.work (self.old.threads + 1)) self.old.behind.items }
        ensures fly { AreFlying self.new.inbox.work (self.new.threads + 1) self.new.inbox.failed self.new.first self.new.behind.items }
        ensures inbox { self.new.inbox ≡ self.old.inbox }
        ensures threads { self.new.threads ≡ self.old.threads }
        ensures out { left_all self.new.first self.new.behind.items ≡ left_in flight ++ flat_map left_in self.old.behind.items }
    {
        if flight.is_used_up() {
            drop(flight);
            self.first = self.behind.pop_front();
            return;
        }
        self.first = Some(flight);
    }

    // Takes the oldest run off the first board.
    fn land(&mut self, flight: Flight) -> Result<Done, AllocError>
        requires flight { IsFlight self.old.inbox.work (self.old.threads + 1) flight }
        requires fly { All (IsFlight self.old.inbox.work (self.old.threads + 1)) self.old.behind.items }
        requires none { self.old.first ≡ None }
        ensures fly { AreFlying self.new.inbox.work (self.new.threads + 1) self.new.inbox.failed self.new.first self.new.behind.items }
        ensures posts { KeepsPosts self.old.inbox self.new.inbox }
        ensures threads { self.new.threads ≡ self.old.threads }
        ensures taken { IfOk result (λ run. left_in flight ++ (flat_map left_in self.old.behind.items ++ self.old.inbox.out) ≡ task_of self.old.inbox.work run ∷ (left_all self.new.first self.new.behind.items ++ self.new.inbox.out)) }
        ensures run { IfOk result (IsRun self.old.inbox.work) }
        ensures open { OnOk result (self.new.inbox.failed ≡ self.old.inbox.failed) }
        ensures fails { OnErr result (self.new.inbox.failed ≡ true) }
    {
        let mut flight = flight;
        self.bring_back(&mut flight)?;
        let run = flight.take();
        self.put_first(flight);
        self.inbox.noted(run)
    }
}

impl<'a, H: Wait, G: Enter> Crew for PipeCrew<'a, H, G> {
    ghost work = { λ c. c.inbox.work };

    ghost out = { λ c. left_all c.first c.behind.items ++ c.inbox.out };

    ghost posted = { λ c. c.inbox.posted };

    ghost failed = { λ c. c.inbox.failed };

    ghost ready = { λ c. AreFlying c.inbox.work (c.threads + 1) c.inbox.failed c.first c.behind.items };

    fn post<R: Threads + Sync>(&mut self, _rt: &R, task: Task) -> Result<(), AllocFailed<Task>> {
        let steps = self.mean_steps.reckoned(&task);
        self.load.add(steps);
        self.inbox.post(task)
    }

    fn next<R: Threads + Sync>(&mut self, _rt: &R) -> Result<Option<Done>, AllocError> {
        self.inbox.open()?;
        let Some(flight) = self.take_first()? else {
            return self.run_oldest();
        };
        let done = self.land(flight)?;
        Ok(Some(done))
    }
}
