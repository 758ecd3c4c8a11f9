// The next turn of a run.

ghost use Rattle.std.specs.Prelude.{◌≡◌, ◌<◌, ◌≤◌, ◌+◌, ◌^◌, false, List, length, option_map, IfOk, OnOk};
ghost use Rattle.gp_base.specs.declared.limits.TheConstants.{MOST_THREADS};
ghost use Rattle.task_ast.specs.Plain.{Plain};
ghost use Rattle.record_store.specs.Stored.{state_of};
ghost use Rattle.subthread.specs.Tasks.{machine_of};
ghost use Rattle.gp_resume.specs.inner.Course.{spot_place, IsSuited, Gives};
ghost use Rattle.gp_resume.specs.inner.Flights.{Flown, Flight, StandsPast};
ghost use Rattle.gp_resume.specs.inner.Waves.{StandsSomewhere, IsFlying, GivesFirst, GivesBeside, IsClosed};
ghost use Rattle.gp_resume.specs.inner.Turning.{start_with, settled_place, HasChild, IsIssued};

use crate::course::{Begun, Course, ResumePlan, Spot, Step};
use gp_base::{At, Pos, ThreadNo};
use record_store::Store;
use std::alloc::{AllocError, Global};
use task_ast::{Next, SyncOp};
use token_order::Turn;

// Where the child of a fork starts.
fn start_of(
    alloc: Global,
    plan: &ResumePlan,
    sync: &SyncOp,
    threads: usize,
) -> Result<Option<Spot>, AllocError>
    requires { threads ≤ MOST_THREADS }
    ensures { IfOk result (λ start. option_map spot_place start ≡ start_with (machine_of plan.now.work.now) sync.now threads) }
{
    match sync {
        SyncOp::Fork { task, args } => {
            let ctl = plan.work.code.start_values(alloc, *task, args)?;
            let at = At { task: *task, pc: 0 };
            let me = ThreadNo(threads as u32);
            Ok(Some(Spot { at, ctl, me }))
        }
        _ => Ok(None),
    }
}

// The spot, where a settle has set its variable to the value of its register.
fn settled(spot: Spot, sync: &SyncOp, thread: ThreadNo, store: &Store) -> Spot
    ensures { spot_place result ≡ settled_place sync.now thread (state_of store.now) (spot_place spot) }
{
    let mut spot = spot;
    match sync {
        SyncOp::Settle { reg, ctl } => {
            let value = store.register(thread, *reg as usize);
            let at = *ctl as usize;
            if at < spot.ctl.len() {
                spot.ctl.set(at, value);
            }
        }
        SyncOp::Start => {}
        SyncOp::Lock(_) => {}
        SyncOp::Unlock(_) => {}
        SyncOp::Fork { .. } => {}
        SyncOp::Join(_) => {}
        SyncOp::Barrier(_) => {}
        SyncOp::End => {}
        SyncOp::BadIndex => {}
        SyncOp::Spent => {}
    }
    spot
}

impl Course {
    // Adds the child of a fork at its start, of whose registers there are none yet. The error is that memory is out.
    fn add_child(
        &mut self,
        alloc: Global,
        plan: &ResumePlan,
        sync: &SyncOp,
    ) -> Result<(), AllocError>
        requires few { length self.old.spots.items ≤ MOST_THREADS }
        ensures { OnOk result (HasChild plan.now.work.now self.old self.new sync.now) }
    {
        match start_of(alloc, plan, sync, self.spots.len())? {
            Some(start) => {
                self.spots.push(start)?;
                self.store.reserve_thread(alloc, 0)
            }
            None => Ok(()),
        }
    }

    // A subthread begins, whose turn it was.
    fn issue(
        &mut self,
        alloc: Global,
        plan: &ResumePlan,
        thread: ThreadNo,
        begins: Next,
        child: Option<ThreadNo>,
    ) -> Result<Begun, AllocError>
        requires there { thread < length self.old.spots.items }
        requires few { length self.old.spots.items ≤ MOST_THREADS }
        requires short { self.old.issued + 1 < 2 ^ 32 }
        ensures { IfOk result (IsIssued plan.now.work.now self.old self.new thread begins child) }
    {
        let spot = self.spots[thread.0 as usize].copied(alloc)?;
        let spot = settled(spot, &begins.sync, thread, &self.store);
        let held = self.ring.held_after(alloc, thread, &SyncOp::Start)?;
        self.add_child(alloc, plan, &begins.sync)?;
        let pos = Pos(self.issued);
        self.issued += 1;
        Ok(Begun {
            pos,
            thread,
            begins,
            child,
            spot,
            held,
        })
    }

    /// The next subthread, which begins, or the end. The error is that memory is out; nothing is said then of the
    /// course.
    pub fn next(&mut self, alloc: Global, plan: &ResumePlan) -> Result<Step, AllocError>
        requires suits { IsSuited plan.now }
        requires stands { StandsSomewhere plan.now self.old }
        ensures gives { IfOk result (λ step. (x : Plain) → StandsPast plan.now x self.old → Gives plan.now x step self.new) }
        ensures first { IfOk result (λ step. (x : Plain) → StandsPast plan.now x self.old → GivesFirst plan.now x step self.new) }
        ensures closed { IfOk result (λ step. IsClosed step self.new) }
    {
        'turning: loop {
            self.ring.reserve()?;
            self.ring.clear();
            match self.ring.turn() {
                Turn::Pass => {}
                Turn::Settles(_) => unreachable!(),
                Turn::Needs(_) => unreachable!(),
                Turn::Ended(end) => return Ok(Step::Ends(end)),
                Turn::Issue {
                    thread,
                    begins,
                    child,
                } => {
                    let below = self.issued < plan.limits.subthreads;
                    prove!(below);
                    let begun = self.issue(alloc, plan, thread, begins, child)?;
                    return Ok(Step::Goes(begun));
                }
            }
        }
    }

    /// The next subthread, which begins beside those that are out, where it is known which that is and its thread is
    /// one of the first so many. Any other waits until those that are out have come home: a settle needs what they
    /// leave, and so does a thread that one of them forked. The error is that memory is out; nothing is said then of
    /// the course.
    pub fn next_beside(
        &mut self,
        alloc: Global,
        plan: &ResumePlan,
        threads: usize,
    ) -> Result<Option<Begun>, AllocError>
        requires suits { IsSuited plan.now }
        requires flying { IsFlying plan.now threads self.old }
        requires closed { self.old.ring.cleared ≡ false }
        ensures gives { IfOk result (λ next. (x : Plain) (y : Plain) (fs : List Flown) → Flight plan.now threads x y fs self.old → GivesBeside plan.now threads x y fs next self.new) }
        ensures closed { OnOk result (self.new.ring.cleared ≡ false) }
    {
        'turning: loop {
            self.ring.reserve()?;
            let Some(ahead) = self.ring.ahead() else {
                return Ok(None);
            };
            if ahead.0 as usize >= threads {
                return Ok(None);
            }
            match self.ring.turn() {
                Turn::Pass => {}
                Turn::Settles(_) => return Ok(None),
                Turn::Needs(_) => return Ok(None),
                Turn::Ended(_) => return Ok(None),
                Turn::Issue {
                    thread,
                    begins,
                    child,
                } => {
                    let below = self.issued < plan.limits.subthreads;
                    prove!(below);
                    let begun = self.issue(alloc, plan, thread, begins, child)?;
                    return Ok(Some(begun));
                }
            }
        }
    }
}
