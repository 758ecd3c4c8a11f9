// How far a run has come that goes on from a log.

ghost use Rattle.std.specs.Prelude.{◌≡◌, ◌<◌, length, slice_set, IfOk};
ghost use Rattle.task_ast.specs.Table.{learning};

use crew::MeanSteps;
use gp_base::{At, End, Inputs, Limits, LockNo, Nums, Pos, Seq, ThreadNo};
use record_store::Store;
use std::alloc::{AllocError, Global};
use std::snapshot::Snapshot;
use subthread::Work;
use task_ast::{Layout, Next};
use token_order::Ring;

/// What a run begins with: the layout of its cells, its inputs, and its limits.
#[derive(Drop)]
pub struct Opening {
    pub layout: Layout,
    pub inputs: Inputs,
    pub limits: Limits,
}

/// The work that the tasks of a run share, beside the table in which a crew notes how many steps its subthreads make, if
/// it does.
#[derive(Drop)]
pub struct PacedWork<'a> {
    pub work: &'a Work,
    pub mean_steps: &'a MeanSteps,
}

/// What is run: the work that its tasks share, the inputs as they were at its start, and its limits. And how many steps its
/// subthreads are reckoned to make, by which it is chosen how many go at a time.
#[derive(Drop)]
pub struct ResumePlan<'a> {
    pub work: &'a Work,
    pub inputs: Snapshot<Inputs>,
    pub limits: Limits,
    pub mean_steps: &'a MeanSteps,
}

/// Where a thread stands in the code, with its control variables.
#[derive(Drop)]
pub struct Spot {
    pub at: At,
    pub ctl: Nums,
    pub me: ThreadNo,
}

/// How far a run has come: the ring of its threads, where each of them stands, the data, which are all at home, and how
/// many subthreads have begun.
#[derive(Drop)]
pub struct Course {
    pub ring: Ring,
    pub spots: Vec<Spot>,
    pub store: Store,
    pub issued: u32,
}

/// A subthread that begins: its position, thread, synchronisation and child, where its thread stands, after what a
/// settle sets, and the locks that it holds.
#[derive(Drop)]
pub struct Begun {
    pub pos: Pos,
    pub thread: ThreadNo,
    pub begins: Next,
    pub child: Option<ThreadNo>,
    pub spot: Spot,
    pub held: Seq<LockNo>,
}

/// What comes next in a run: a subthread, or its end.
#[derive(Drop)]
pub enum Step {
    Goes(Begun),
    Ends(End),
}

impl Spot {
    /// The same spot. The error is that memory is out.
    pub fn copied(&self, alloc: Global) -> Result<Spot, AllocError>
        ensures { IfOk result (λ spot. spot ≡ self.now) }
    {
        Ok(Spot {
            at: self.at,
            ctl: self.ctl.copied(alloc)?,
            me: self.me,
        })
    }
}

impl Course {
    /// A thread's subthread leaves it here, before its next synchronisation.
    pub fn leave(&mut self, thread: ThreadNo, next: Next, at: At, ctl: Nums)
        requires seats { thread < length self.old.ring.table.seats }
        requires spots { thread < length self.old.spots.items }
        ensures table { self.new.ring.table ≡ learning self.old.ring.table thread next }
        ensures spots { self.new.spots.items ≡ slice_set self.old.spots.items thread (record { at = at; ctl = ctl; me = thread }) }
        ensures store { self.new.store ≡ self.old.store }
        ensures issued { self.new.issued ≡ self.old.issued }
    {
        self.ring.learn(thread, next);
        self.spots[thread.0 as usize] = Spot {
            at,
            ctl,
            me: thread,
        };
    }
}
