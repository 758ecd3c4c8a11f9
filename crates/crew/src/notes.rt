// What a run tells of itself while it goes on.
ghost use Rattle.std.specs.Prelude.{◌≡◌, ℕ, ⊤, List, Option, OnOk, OnErr};
ghost use Rattle.gp_base.specs.meaning.Sinks.{HasCause};
ghost use Rattle.task_ast.specs.declared.effect.Effect.{Effect};
ghost use Rattle.subthread.specs.Tasks.{effect_of, IsRun};
ghost use Rattle.crew.specs.Noted.{NotesResult, NotesNothing, NotesRetired, NotesPart};

use gp_base::{Pos, Sink, SinkFault};
use std::alloc::AllocError;
use subthread::{Done, Work};

/// Who keeps a log of a run: is told each result that is applied, and each position that retires, which then goes out
/// to a sink.
pub trait Notes {
    // What was noted, and how the sink stands to it: its known bytes when the notes began and now, what the last result
    // of each position left, and what those left that have retired, in order from the first.
    ghost tells: { Self → (start written : Option (List ℕ)) → (left : ℕ → Option Effect) → (told : List Effect) → Type 0 };

    // How a sink stands that did not take all that was to be told of the last of these positions.
    ghost part: { (start written : Option (List ℕ)) → (told : List Effect) → Type 0 };

    /// Notes the run of a task whose result is applied. The error is that memory is out, and changes nothing.
    fn took(&mut self, work: &Work, done: &Done) -> Result<(), AllocError>
        requires { IsRun work.now done.now }
        ensures noted { OnOk result (NotesResult (tells self.old) (tells self.new) done.now.task.pos (effect_of work.now done.now)) }
        ensures kept { OnErr result (NotesNothing (tells self.old) (tells self.new)) };

    /// Tells the sink that a position has retired, which is the next one. After an error the sink got a part of that.
    fn retired<L: Sink>(&mut self, position: Pos, log: &mut L) -> Result<(), SinkFault>
        ensures told { OnOk result (NotesRetired (tells self.old) (tells self.new) (L.written log.old) (L.written log.new) position) }
        ensures part { OnErr result (NotesPart (tells self.old) part (L.written log.old) (L.written log.new) position) }
        ensures cause { HasCause (L.faults log.old) (L.faults log.new) result };
}

/// Notes nothing, and tells nothing.
#[derive(Clone, Copy)]
pub struct NoNotes;

impl Notes for NoNotes {
    ghost tells = { λ _ start written left told. ⊤ };

    ghost part = { λ start written told. ⊤ };

    fn took(&mut self, _work: &Work, _done: &Done) -> Result<(), AllocError> {
        Ok(())
    }

    fn retired<L: Sink>(&mut self, _position: Pos, _log: &mut L) -> Result<(), SinkFault> {
        Ok(())
    }
}
