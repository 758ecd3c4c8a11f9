// What a trace tells of the attempts of a run.
ghost use Rattle.std.specs.Prelude.{◌≡◌, ℕ, cond, OnOk, IfOk, option_map};
ghost use Rattle.run_picture.specs.meaning.Attempts.{told_by, told_from, told_of};
ghost use Rattle.run_picture.specs.declared.told.Told.TheVariants.{Taken, Stale, Unrun};
ghost use Rattle.run_picture.specs.inner.Tellings.{found};

use gp_audit::TraceLine;
use std::alloc::{AllocError, Global};
use std::collections::BTreeMap;

/// What is told of an attempt: nothing, since there is no trace; that its result was applied; that its result came
/// after a restart that redid the attempt; or that it was not run, or at least that no result came.
#[derive(Clone, Copy)]
pub enum Told {
    Untold,
    Taken,
    Stale,
    Unrun,
}

/// What is told of attempts: of those whose results were taken, by position and number of the attempt, and of all
/// others.
#[derive(Drop)]
pub struct Tellings {
    pub taken: BTreeMap<(u32, u32), Told>,
    pub others: Told,
}

// What is told of an attempt whose result was taken.
fn taken_as(applies: bool) -> Told
    ensures { result ≡ cond applies Taken Stale }
{
    if applies { Told::Taken } else { Told::Stale }
}

impl Tellings {
    /// What is told of an attempt of a position.
    pub fn told(&self, position: u32, attempt: u32) -> Told
        ensures { result ≡ found self.now position attempt }
    {
        match self.taken.get(&(position, attempt)) {
            Some(told) => *told,
            None => self.others,
        }
    }

    // Takes what a line tells, where it tells of a result.
    fn note(&mut self, line: &TraceLine) -> Result<(), AllocError>
        ensures { OnOk result ((position attempt : ℕ) → found self.new position attempt
            ≡ told_by position attempt (found self.old position attempt) line.now) }
    {
        if let TraceLine::Take(position, attempt, applies) = line {
            self.taken
                .insert((position.0, *attempt), taken_as(*applies))?;
        }
        Ok(())
    }
}

// What the lines of a trace tell.
fn told_in(alloc: Global, lines: &[TraceLine]) -> Result<Tellings, AllocError>
    ensures { IfOk result (λ tellings. (position attempt : ℕ) → found tellings position attempt
        ≡ told_from position attempt Unrun lines.now) }
{
    let mut tellings = Tellings {
        taken: BTreeMap::new(alloc),
        others: Told::Unrun,
    };
    for line in lines {
        tellings.note(line)?;
    }
    Ok(tellings)
}

/// What a trace tells, where there is one. The error is that memory is out.
pub fn tellings_of(alloc: Global, trace: Option<&[TraceLine]>) -> Result<Tellings, AllocError>
    ensures { IfOk result (λ tellings. (position attempt : ℕ) → found tellings position attempt
        ≡ told_of (option_map (λ lines. lines.now) trace.entry) position attempt) }
{
    match trace {
        Some(lines) => told_in(alloc, lines),
        None => Ok(Tellings {
            taken: BTreeMap::new(alloc),
            others: Told::Untold,
        }),
    }
}
