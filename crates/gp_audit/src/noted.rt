// What the lines of a trace leave to an audit, one after another.
ghost use Rattle.std.specs.Prelude.{◌≡◌, ◌↔◌, ◌<◌, ◌≤◌, ◌+◌, ◌++◌, ℕ, length, IsTrue, IfOk, OnOk, All};
ghost use Rattle.gp_base.specs.declared.limits.TheConstants.{MOST_FAULTS};
ghost use Rattle.gp_audit.specs.inner.Audited.{nothing_seen, Takes, seen_at, left_waiting, where_applied, after_line, IsNoteworthy, kept};
ghost use Rattle.gp_audit.specs.declared.line.TraceLine.TheVariants as line;

use crate::line::TraceLine;
use crate::state::{Audit, Seen};
use gp_base::{Fault, Pos, Restart};
use one_thread::Step;
use std::alloc::{AllocError, Global};

// Takes a position from those that wait, where its result is applied.
fn leave_waiting(waiting: &mut Vec<u32>, position: u32, applies: bool)
    ensures { waiting.new.items ≡ left_waiting applies position waiting.old.items }
{
    if applies {
        waiting.retain(|other| *other != position);
    }
}

// Puts a position among those that wait, where it was applied: else it stands there.
fn wait_again(waiting: &mut Vec<u32>, position: u32, was_applied: bool) -> Result<(), AllocError>
    ensures { OnOk result (waiting.new.items ≡ waiting.old.items ++ where_applied was_applied position) }
{
    if was_applied {
        waiting.push(position)?;
    }
    Ok(())
}

impl<'a> Audit<'a> {
    /// Before the first event. Takes no memory.
    pub fn new(alloc: Global, steps: &'a [Step], faults: &'a [Fault]) -> Audit<'a>
        requires { length steps.now < 4294967295 }
        ensures { kept result ≡ nothing_seen steps.entry.now faults.entry.now }
    {
        Audit {
            steps,
            faults,
            seen: Vec::new(alloc),
            out: Vec::new(alloc),
            waiting: Vec::new(alloc),
            retired: 0,
        }
    }

    pub fn issue(&mut self, position: Pos) -> Result<(), AllocError>
        requires { position < length (kept self.old).steps }
        ensures { OnOk result ((kept self.new) ≡ after_line (kept self.old) (line.Issue position)) }
    {
        self.seen.push(Seen {
            attempt: 0,
            begun: position.0 + 1,
            posted: false,
            applied: false,
            taken: false,
        })?;
        self.waiting.push(position.0)?;
        Ok(())
    }

    fn post(&mut self, position: Pos, attempt: u32) -> Result<(), AllocError>
        requires { position < length (kept self.old).seen }
        ensures { OnOk result ((kept self.new) ≡ after_line (kept self.old) (line.Post position attempt)) }
    {
        self.out.push((position.0, attempt))?;
        let seen = self.seen[position.0 as usize];
        self.seen[position.0 as usize] = Seen {
            posted: true,
            ..seen
        };
        Ok(())
    }

    fn take(&mut self, position: Pos, attempt: u32, applies: bool)
        requires { position < length (kept self.old).seen }
        ensures { (kept self.new) ≡ after_line (kept self.old) (line.Take position attempt applies) }
    {
        let pair = (position.0, attempt);
        self.out.retain(|other| *other != pair);
        leave_waiting(&mut self.waiting, position.0, applies);
        let seen = self.seen[position.0 as usize];
        self.seen[position.0 as usize] = Seen {
            applied: applies || seen.applied,
            taken: true,
            ..seen
        };
    }

    pub fn restart(&mut self, restart: &Restart) -> Result<(), AllocError>
        requires issued { All (λ p. p < length (kept self.old).seen) restart.now.redo }
        requires narrow { length (kept self.old).seen < 4294967295 }
        requires short { length restart.now.redo ≤ length (kept self.old).seen }
        requires few { (p : ℕ) → (seen_at (kept self.old).seen p).attempt ≤ MOST_FAULTS }
        ensures { OnOk result ((kept self.new) ≡ after_line (kept self.old) (line.Restart restart.now)) }
    {
        let front = self.seen.len() as u32;
        for position in restart.redo.as_slice() {
            let seen = self.seen[position.0 as usize];
            wait_again(&mut self.waiting, position.0, seen.applied)?;
            self.seen[position.0 as usize] = Seen {
                attempt: seen.attempt + 1,
                begun: front,
                posted: false,
                applied: false,
                taken: seen.taken,
            };
        }
        Ok(())
    }

    /// Whether the line may come next. Where it may, it is noted. The error is that memory is out.
    pub fn takes_line(&mut self, line: &TraceLine) -> Result<bool, AllocError>
        requires within { length (kept self.old).seen ≤ length (kept self.old).steps }
        requires noteworthy { IsNoteworthy (kept self.old) }
        ensures takes { IfOk result (λ b. IsTrue b ↔ Takes (kept self.old) line.now) }
        ensures noted { IfOk result (λ b. IsTrue b → (kept self.new) ≡ after_line (kept self.old) line.now) }
    {
        if !self.may_come(line) {
            return Ok(false);
        }
        match line {
            TraceLine::Issue(position) => self.issue(*position)?,
            TraceLine::Post(position, attempt) => self.post(*position, *attempt)?,
            TraceLine::Take(position, attempt, applies) => {
                self.take(*position, *attempt, *applies);
            }
            TraceLine::Restart(restart) => self.restart(restart)?,
            TraceLine::Retire(_) => self.retired += 1,
        }
        Ok(true)
    }
}
