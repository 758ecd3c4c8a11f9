// The restarts that faults make of a run.
ghost use Rattle.std.specs.Prelude.{◌≡◌, ◌<◌, ◌≤◌, length, IfOk, OnOk};
ghost use Rattle.gp_base.specs.declared.limits.TheConstants.{MOST_FAULTS};
ghost use Rattle.dependence.specs.meaning.Conflict.{clash_in};
ghost use Rattle.dependence.specs.meaning.Dependents.{dependents};
ghost use Rattle.dependence.specs.meaning.Restarts.{restarts};
ghost use Rattle.gp_audit.specs.Steps.{feet_in, dependence_by};
ghost use Rattle.gp_audit.specs.inner.Audited.{kept, seen_at, restart_at};
ghost use Rattle.gp_audit.specs.inner.Replayed.{Replays, Advances};

use crate::state::Audit;
use gp_base::{Faults, Pos, Restart, Seq};
use one_thread::Step;
use std::alloc::{AllocError, Global};

impl Audit<'_> {
    // The dependents of a position below the front.
    fn dependents(&self, alloc: Global, struck: usize) -> Result<Seq<Pos>, AllocError>
        requires struck { struck < length (kept self.now).seen }
        requires within { length (kept self.now).seen ≤ length (kept self.now).steps }
        ensures { IfOk result (λ redo. redo ≡ dependents (clash_in (feet_in (kept self.now).steps)) struck (length (kept self.now).seen)) }
    {
        let mut redo = Seq::new(alloc);
        for later in struck..self.seen.len() {
            if later == struck || self.is_reached(redo.as_slice(), later) {
                redo.push(Pos(later as u32))?;
            }
        }
        Ok(redo)
    }

    // The restart of a position.
    fn restart_of(&self, alloc: Global, struck: u32) -> Result<Restart, AllocError>
        requires struck { struck < length (kept self.now).seen }
        requires within { length (kept self.now).seen ≤ length (kept self.now).steps }
        requires few { (seen_at (kept self.now).seen struck).attempt ≤ MOST_FAULTS }
        ensures { IfOk result (λ restart. restart ≡ restart_at (kept self.now) struck) }
    {
        let at = struck as usize;
        Ok(Restart {
            front: Pos(self.seen.len() as u32),
            struck: Pos(struck),
            attempt: self.seen[at].attempt as u32,
            redo: self.dependents(alloc, at)?,
        })
    }

    // The restart that comes next, or else the next front, up to the end of the run.
    fn advance(&mut self, alloc: Global, made: &mut Seq<Restart>) -> Result<(), AllocError>
        requires replays { Replays (kept self.old) made.old }
        requires few { length made.old ≤ MOST_FAULTS }
        ensures { OnOk result (Advances (kept self.old) made.old (kept self.new) made.new) }
    {
        let front = self.seen.len() as u32;
        match self.struck_next() {
            Some(struck) => {
                let restart = self.restart_of(alloc, struck)?;
                self.restart(&restart)?;
                made.push(restart)
            }
            None if self.is_last() => Ok(()),
            None => self.issue(Pos(front)),
        }
    }
}

/// The restarts that these faults make of a run with these steps. The error is that memory is out.
pub fn restarts_of(
    alloc: Global,
    order: &Seq<Step>,
    faults: &Faults,
) -> Result<Seq<Restart>, AllocError>
    requires { length order.now < 4294967295 }
    ensures { IfOk result (λ made. made ≡ restarts (dependence_by order.now) faults.now.list) }
{
    let mut audit = Audit::new(alloc, order.as_slice(), faults.as_slice());
    let mut made = Seq::new(alloc);
    for _ in 0..order.len() + faults.as_slice().len() {
        audit.advance(alloc, &mut made)?;
    }
    Ok(made)
}
