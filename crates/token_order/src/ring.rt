// The ring of threads, as its callers see it.

ghost use Rattle.std.specs.Prelude.{◌≡◌, ◌<◌, ◌≤◌, true, false, length, None, IfOk, OnOk, replicate};
ghost use Rattle.std.specs.Option.{option_map, option_copied};
ghost use Rattle.task_ast.specs.Reached.{start_table};
ghost use Rattle.task_ast.specs.Table.{next_of, learning};
ghost use Rattle.task_ast.specs.meaning.Table.{owned_from};
ghost use Rattle.task_ast.specs.meaning.Turn.{owners_after};
ghost use Rattle.task_ast.specs.laws.Threads.{ahead};
ghost use Rattle.token_order.specs.Spans.{Passes};
ghost use Rattle.token_order.specs.Turned.{Turned, LeavesRoom, is_let, cleared_after, needed_at};
ghost use Rattle.token_order.specs.View.{awaited};

use crate::held::Held;
use crate::rules::Turn;
use crate::spans::Spans;
use crate::threads::Threads;
use gp_base::{LockNo, Pos, Seq, ThreadNo};
use std::alloc::{AllocError, Global};
use std::marker::Model;
use task_ast::{Next, SyncOp};

/// The threads of a run, whose turns a token gives them as it goes round. Contracts see the thread table, and room for
/// how many more threads there is.
#[derive(Drop)]
pub struct Ring {
    threads: Threads,
    spans: Spans,
    held: Held,
    cleared: bool,
}

impl Model for Ring {
    ghost use Rattle.token_order.specs.View.{Roomy, table};
    ghost use Rattle.token_order.specs.Spans.{shown};
    ghost use Rattle.token_order.specs.Standing.{RingStands, spare_of};

    ghost Value = { Roomy };

    ghost view = { λ r. record { table = shown r.spans.span (table r.threads); spare = spare_of r.threads r.held; cleared = r.cleared } };

    ghost invariant = { λ r. RingStands r.threads r.spans r.held };
}

// Whether a settle is let after the turn.
fn cleared_after(turn: &Turn, cleared: bool) -> bool
    ensures { result ≡ cleared_after turn.now cleared }
{
    match turn {
        Turn::Issue { .. } => false,
        _ => cleared,
    }
}

impl Ring {
    /// One thread, which begins with `main`; so many lock cells, which nobody owns; the stated numbers of the barriers;
    /// and the number of subthreads that may begin at most. The error is that memory is out.
    pub fn new(
        alloc: Global,
        locks: u32,
        barriers: Seq<u32>,
        limit: u32,
        main: Next,
    ) -> Result<Ring, AllocError>
        ensures table { IfOk result (λ ring. ring.table ≡ start_table limit barriers (replicate locks None) main) }
        ensures cleared { IfOk result (λ ring. ring.cleared ≡ false) }
    {
        let threads = Threads::new(alloc, locks, barriers.into_vec(), limit, main)?;
        let held = Held::new(alloc, locks as usize)?;
        Ok(Ring {
            threads,
            spans: Spans::new(alloc)?,
            held,
            cleared: false,
        })
    }

    /// How many threads there are.
    pub fn len(&self) -> usize
        ensures { result ≡ length self.now.table.seats }
    {
        self.threads.seats.len()
    }

    /// Makes room for one more thread, which the next turn may fork. The error is that memory is out.
    pub fn reserve(&mut self) -> Result<(), AllocError>
        ensures table { self.new.table ≡ self.old.table }
        ensures room { OnOk result (0 < self.new.spare) }
        ensures kept { self.old.spare ≤ self.new.spare }
        ensures cleared { self.new.cleared ≡ self.old.cleared }
    {
        self.threads.seats.reserve(1)?;
        self.spans.reserve(self.threads.seats.len())?;
        self.held.apply_change()
    }

    /// The threads to which the token comes next pass, as far as they wait at barriers, many of them in one step. Takes no
    /// memory.
    pub fn pass_waiting(&mut self)
        ensures passes { Passes self.old.table self.new.table }
        ensures spare { self.new.spare ≡ self.old.spare }
        ensures cleared { self.new.cleared ≡ self.old.cleared }
    {
        let start = self.threads.start();
        self.threads.shorten(0);
        self.threads.shorten(start);
        self.threads.pass_waiting(&mut self.spans);
    }

    /// Lets the next issue begin with a settle. Takes no memory.
    pub fn clear(&mut self)
        ensures table { self.new.table ≡ self.old.table }
        ensures spare { self.new.spare ≡ self.old.spare }
        ensures cleared { self.new.cleared ≡ true }
    {
        self.cleared = true;
    }

    /// The thread that the token comes to, where its next synchronisation is not known: then a turn needs that, and changes
    /// nothing.
    pub fn needs(&self) -> Option<ThreadNo>
        ensures { result ≡ needed_at self.now.table }
    {
        let t = self.threads.needs()?;
        Some(ThreadNo(t))
    }

    /// One turn: a pass, an issue, a settle that is not let, or what is needed for one, or the end. Takes no memory.
    pub fn turn(&mut self) -> Turn
        requires { 0 < self.old.spare }
        ensures turned { Turned self.old.cleared self.old.table result self.new.table }
        ensures cleared { self.new.cleared ≡ cleared_after result self.old.cleared }
        ensures spare { LeavesRoom result self.old.spare self.new.spare }
    {
        if !self.cleared {
            if let Some(thread) = self.threads.settling_in(self.spans.span) {
                return Turn::Settles(ThreadNo(thread));
            }
        }
        let turn = self.threads.turn_in(&mut self.spans);
        self.held.note(&turn);
        self.cleared = cleared_after(&turn, self.cleared);
        turn
    }

    /// The next synchronisation of a thread becomes known.
    pub fn learn(&mut self, thread: ThreadNo, next: Next)
        requires { thread < length self.old.table.seats }
        ensures table { self.new.table ≡ learning self.old.table thread next }
        ensures spare { self.new.spare ≡ self.old.spare }
        ensures cleared { self.new.cleared ≡ self.old.cleared }
    {
        self.spans.uncover(&self.threads, thread.0);
        self.threads.learn(thread.0, next);
    }

    /// The thread whose rules the next turn tries: none where a next synchronisation is needed, or every thread has
    /// passed or ended.
    pub fn ahead(&self) -> Option<ThreadNo>
        ensures { result ≡ option_map (λ tried. tried.0) (ahead self.now.table) }
    {
        let t = self.threads.ahead_in(self.spans.span)?;
        Some(ThreadNo(t))
    }

    /// Whether the thread that the token comes to, which stands at it, isn't kept back: nobody owns its lock, the thread
    /// that it joins is known to have ended, and at a barrier it was released, or is the last of the stated number. A turn
    /// issues no thread that is kept back.
    pub fn lets(&self, sync: &SyncOp) -> bool
        ensures { result ≡ is_let self.now.table sync.now }
    {
        self.threads.lets(sync)
    }

    /// A thread's next synchronisation, where it is known.
    pub fn next_of(&self, thread: ThreadNo) -> Option<&Next>
        ensures { option_copied result ≡ next_of self.now.table thread }
    {
        self.threads.next_of(thread.0)
    }

    /// The position of the thread's last subthread, where the next synchronisation is not known.
    pub fn awaits(&self, thread: ThreadNo) -> Option<Pos>
        ensures { result ≡ awaited self.now.table thread }
    {
        self.threads.awaits(thread.0)
    }

    /// The locks that the thread holds once it has performed the synchronisation, in rising order. The error is that
    /// memory is out.
    pub fn held_after(
        &self,
        alloc: Global,
        thread: ThreadNo,
        sync: &SyncOp,
    ) -> Result<Seq<LockNo>, AllocError>
        ensures { IfOk result (λ locks. locks ≡ owned_from 0 (owners_after sync.now thread self.now.table.owners) thread) }
    {
        self.held.held_after(alloc, thread.0, sync)
    }
}
