// What a machine that errs makes of a walk.
ghost use Rattle.std.specs.Prelude.{◌≡◌, ◌↔◌, IsTrue, IfOk, MatchOption};
ghost use Rattle.subthread.specs.meaning.Flaws.{Strikes};
ghost use Rattle.subthread.specs.declared.flaw.Made.{Made as MadeSo};

use gp_base::{Footprint, Lines, Nums, Pos, RecNo, Seq};
use std::alloc::{AllocError, Global};
use task_ast::Next;

/// What a walk comes to, and hands on: the number of the instruction at which its thread then stands, with the control
/// variables; the registers of the thread and of the child that it forked; the record cells that it wrote, in rising order,
/// each with its last value; the lines that it printed; what comes next; and what it reads and writes.
#[derive(Drop)]
pub struct Made {
    pub pc: usize,
    pub ctl: Nums,
    pub regs: Nums,
    pub child: Nums,
    pub writes: Seq<(RecNo, i64)>,
    pub lines: Lines,
    pub next: Next,
    pub foot: Footprint,
}

/// A flaw of the machine: what it makes of one walk of an attempt of the subthread at a position, in the place of what is
/// right. Walks of an attempt are counted from 0.
#[derive(Drop)]
pub struct Flaw {
    pub pos: Pos,
    pub attempt: u32,
    pub walk: u32,
    pub made: Made,
}

fn copied_lines(alloc: Global, lines: &[Nums]) -> Result<Lines, AllocError>
    ensures { IfOk result (λ copies. copies ≡ lines.now) }
{
    let mut copies = Seq::new(alloc);
    for line in lines {
        copies.push(line.copied(alloc)?)?;
    }
    Ok(copies)
}

fn copied_foot(alloc: Global, foot: &Footprint) -> Result<Footprint, AllocError>
    ensures { IfOk result (λ copy. copy ≡ foot.now) }
{
    Ok(Footprint {
        reads: foot.reads.copied(alloc)?,
        writes: foot.writes.copied(alloc)?,
    })
}

impl Made {
    /// The same again. The error is that memory is out.
    pub fn copied(&self, alloc: Global) -> Result<Made, AllocError>
        ensures { IfOk result (λ copy. copy ≡ self.now) }
    {
        Ok(Made {
            pc: self.pc,
            ctl: self.ctl.copied(alloc)?,
            regs: self.regs.copied(alloc)?,
            child: self.child.copied(alloc)?,
            writes: self.writes.copied(alloc)?,
            lines: copied_lines(alloc, self.lines.as_slice())?,
            foot: copied_foot(alloc, &self.foot)?,
            next: self.next.copied(alloc)?,
        })
    }
}

impl Flaw {
    // Whether it strikes this walk.
    fn strikes(&self, pos: Pos, attempt: u32, walk: u32) -> bool
        ensures { IsTrue result ↔ (self.now.pos ≡ pos) × (self.now.attempt ≡ attempt) × (self.now.walk ≡ walk) }
    {
        self.pos.0 == pos.0 && self.attempt == attempt && self.walk == walk
    }
}

/// What the first of these flaws that strikes a walk makes of it, where one does.
pub fn flaw_among<'a>(flaws: &'a [Flaw], pos: Pos, attempt: u32, walk: u32) -> Option<&'a Made>
    ensures { MatchOption result ((made : MadeSo) → Strikes flaws.now pos attempt walk made → ⊥) (λ made. Strikes flaws.now pos attempt walk made.now) }
{
    'seeking: for at in 0..flaws.len() {
        if flaws[at].strikes(pos, attempt, walk) {
            return Some(&flaws[at].made);
        }
    }
    None
}
