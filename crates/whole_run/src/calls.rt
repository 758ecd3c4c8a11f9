// The calls of an engine that its loop makes.
ghost use Rattle.std.specs.Prelude.{◌≡◌, ◌↔◌, ◌<◌, ℕ, List, [], ◌∷◌, ◌++◌, All, Contains, OnOk, OnErr, IfOk, IfSome, IfNone, IsSome, IsTrue, is_some};
ghost use Rattle.std.specs.Thread.{IsSync};
ghost use Rattle.gp_base.specs.declared.ending.End.{End as EndThere};
ghost use Rattle.gp_base.specs.declared.journal.Event.TheVariants as event;
ghost use Rattle.dependence.specs.meaning.Restarts.{NoneDue};
ghost use Rattle.dependence.specs.Standing.{present};
ghost use Rattle.subthread.specs.declared.task.Task.{Task};
ghost use Rattle.subthread.specs.Tasks.{task_of, effect_of, IsRun};
ghost use Rattle.crew.specs.Out.{pair_of};
ghost use Rattle.crew.specs.Noted.{NotesNothing};
ghost use Rattle.whole_run.specs.View.{View, now};
ghost use Rattle.whole_run.specs.Gives.{Did, IssueGives, struck_now, NoneLent, IsBack, IsScouted, DetectGives, RetireGives, RetireWrites, HasStopCause, MayPostNow, IsNextToPost, NoneToPost, HasFinished, IsJournalOf, IsReportOf};
ghost use Rattle.whole_run.specs.Notes.{NotesTaken};
ghost use Rattle.whole_run.specs.Takes.{TaskStands};

use crew::{Crew, Notes};
use gp_base::{End, Journal, Pos, Sink, ThreadNo};
use reorder_list::{Report, StopWhy};
use std::alloc::AllocError;
use std::thread::Threads;
use subthread::Done;

/// Why nothing is issued at a front: the run ends there, or the next subthread begins with a settle, which waits until
/// all before it has retired.
#[derive(Clone, Copy, PartialEq, Eq)]
pub enum Halt {
    Ended(End),
    Settling,
}

/// What an issue answers: the position that was issued, a thread whose next synchronisation is needed first, one whose
/// settle waits for positions to retire, or how the run ends.
#[derive(Clone, Copy, PartialEq, Eq)]
pub enum Issued {
    One(Pos),
    Needs(ThreadNo),
    Settles(ThreadNo),
    Ended(End),
}

/// What the loop of a run asks of an engine.
pub trait Calls {
    // What contracts see of the engine.
    ghost view: { Self → View };

    // How many events it has room for.
    ghost room: { Self → ℕ };

    /// Issues the next position. The error is that memory is out, and changes nothing.
    fn issue(&mut self) -> Result<Issued, AllocError>
        requires none_due { NoneDue (view self.old).batch.faults (now (view self.old)).progress }
        ensures gives { IfOk result (IssueGives (view self.old) (view self.new)) }
        ensures err { OnErr result (view self.new ≡ view self.old) };

    /// Whether a restart is due, as far as the end is known. Takes no memory.
    fn due(&self) -> bool
        ensures { result ≡ is_some (struck_now (view self.now)) };

    /// Whether all that a restart waits for is back: each lock is at home, or, where all is rolled back, nothing is
    /// out. Takes no memory.
    fn all_home(&self) -> bool
        ensures { IsTrue result ↔ IsBack (view self.now) };

    /// Whether each position that has not retired was run at some attempt, so that what it reads and writes is known,
    /// or that need not be known, since all is rolled back. Takes no memory.
    fn scouted(&self) -> bool
        ensures { IsTrue result ↔ IsScouted (view self.now) };

    /// Makes one restart, before which what each position reads and writes has to be known, where that matters, and all
    /// to be back that it waits for, and answers `true`, or answers `false` where none is due. The error is that memory
    /// is out, and changes nothing.
    fn detect(&mut self) -> Result<bool, AllocError>
        requires scouted { IsSome (struck_now (view self.old)) → IsScouted (view self.old) }
        requires home { IsSome (struck_now (view self.old)) → IsBack (view self.old) }
        ensures gives { IfOk result (DetectGives (view self.old) (view self.new)) }
        ensures err { OnErr result (view self.new ≡ view self.old) };

    /// Retires the oldest position, whose lines it writes, and answers it, or answers `None` where that may not retire.
    /// After an error nothing has retired, and `out` got a part of the lines.
    fn retire<O: Sink>(&mut self, out: &mut O) -> Result<Option<Pos>, StopWhy>
        ensures gives { IfOk result (RetireGives (view self.old) (view self.new)) }
        ensures err { OnErr result (view self.new ≡ view self.old) }
        ensures lines { RetireWrites (view self.old) (O.written out.old) (O.written out.new) result }
        ensures cause { HasStopCause (O.faults out.old) (O.faults out.new) result };

    /// How the run ends, where that is known and all positions have retired.
    fn finished(&self) -> Option<End>
        ensures found { IfSome result (HasFinished (view self.now)) }
        ensures none { IfNone result ((ending : EndThere) → ¬ HasFinished (view self.now) ending) };

    /// The first position from this one on whose present attempt may be posted: each earlier one in conflict with it by
    /// locks is applied, and, where all is rolled back, each one before its block. There it is looked for only among
    /// those that are near the first that is not applied.
    fn runnable(&mut self, from: Pos) -> Option<Pos>
        ensures same { view self.new ≡ view self.old }
        ensures found { IfSome result (IsNextToPost (view self.old) from) }
        ensures none { IfNone result (NoneToPost (view self.old) from) };

    /// Posts the present attempt of a position to a crew of this engine's work, to which nothing else was posted than
    /// what this engine posted; the cells of its locks go out with it.
    /// The error is that memory is out; nothing was posted then, and each cell is where it was.
    fn post<R: Threads + Sync, C: Crew>(
        &mut self,
        rt: &R,
        crew: &mut C,
        position: Pos,
    ) -> Result<(), AllocError>
        requires sync { IsSync R.row }
        requires may { MayPostNow (view self.old) position }
        requires ready { C.ready crew.old }
        requires work { C.work crew.old ≡ (view self.old).batch.work }
        requires posted { All (Contains (now (view self.old)).posted) (C.posted crew.old) }
        ensures did { OnOk result (Did (view self.old) (event.Post position (present (now (view self.old)) position)) (view self.new)) }
        ensures err { OnErr result (view self.new ≡ view self.old) }
        ensures ready { C.ready crew.new }
        ensures work { C.work crew.new ≡ C.work crew.old }
        ensures out { OnOk result ((task : Task) × (C.out crew.new ≡ C.out crew.old ++ task ∷ []) × (pair_of task ≡ (position, present (now (view self.old)) position)) × TaskStands (view self.new) task) }
        ensures posted { OnOk result (C.posted crew.new ≡ C.posted crew.old ++ (position, present (now (view self.old)) position) ∷ []) }
        ensures posted_kept { OnErr result (C.posted crew.new ≡ C.posted crew.old) }
        ensures out_kept { OnErr result (C.out crew.new ≡ C.out crew.old) };

    /// Makes room for one more event. The error is that memory is out.
    fn reserve(&mut self) -> Result<(), AllocError>
        ensures same { view self.new ≡ view self.old }
        ensures room { OnOk result (0 < room self.new) };

    /// Takes the run of a task of this engine that is out, and applies it where its attempt is the present one, which
    /// is the answer: it is noted, and the cells of its locks come home. The error is that memory is out for the notes,
    /// and changes nothing.
    fn accept<N: Notes>(&mut self, done: Done, notes: &mut N) -> Result<bool, AllocError>
        requires task { TaskStands (view self.old) (task_of (view self.old).batch.work done) }
        requires run { IsRun (view self.old).batch.work done }
        requires room { 0 < room self.old }
        ensures did { IfOk result (λ applies. Did (view self.old) (event.Take done.task.pos done.task.attempt applies) (view self.new)) }
        ensures err { OnErr result (view self.new ≡ view self.old) }
        ensures noted { IfOk result (λ applies. NotesTaken applies (N.tells notes.old) (N.tells notes.new) done.task.pos (effect_of (view self.old).batch.work done)) }
        ensures unnoted { OnErr result (NotesNothing (N.tells notes.old) (N.tells notes.new)) };

    /// What the run did. Takes no memory.
    fn into_journal(self) -> Journal
        ensures { IsJournalOf (view self) result };

    /// The report of the run, which has ended so, when each lock is at home. Takes no memory.
    fn into_report(self, end: End) -> Report
        requires home { NoneLent (view self) }
        ensures { IsReportOf (view self) end result };
}
