// Which of the faults of a list strike a run.

use call_cases::Request;
use gp_audit::restarts_of;
use gp_base::limits::MOST_SUBTHREADS;
use gp_base::{Fault, Restart};
use one_thread::PlainRun;
use run_hints::{at, plural, put};
use run_views::push_between;
use std::alloc::{AllocError, Global};
use std::collections::BTreeSet;
use text_pieces::Piece::{Number, Word};
use text_pieces::push_pieces;

// Why a fault is unused: the run has no such position; the position has no such attempt; or a restart ends the attempt before.
#[derive(Clone, Copy)]
enum Unused {
    Position,
    Attempt,
    Undone,
}

// Faults that are unused for one reason: how many, and the first of them.
#[derive(Clone, Copy)]
struct UnusedFaults {
    count: u64,
    first: Option<Fault>,
}

const NONE_YET: UnusedFaults = UnusedFaults {
    count: 0,
    first: None,
};

impl UnusedFaults {
    fn add(&mut self, fault: Fault) {
        self.count = self.count.saturating_add(1);
        if self.first.is_none() {
            self.first = Some(fault);
        }
    }
}

// The attempts that were struck, by position and number, and by position the number of its last attempt.
#[derive(Drop)]
struct Attempts {
    positions: usize,
    struck: BTreeSet<(u32, u32)>,
    lasts: Vec<u32>,
}

impl Attempts {
    // Those of a run with so many positions and these restarts.
    fn new(alloc: Global, positions: usize, restarts: &[Restart]) -> Result<Attempts, AllocError> {
        let mut attempts = Attempts {
            positions,
            struck: BTreeSet::new(alloc),
            lasts: Vec::new(alloc),
        };
        for restart in restarts {
            attempts.note(restart)?;
        }
        Ok(attempts)
    }

    // One restart more.
    fn note(&mut self, restart: &Restart) -> Result<(), AllocError> {
        self.struck.insert((restart.struck.0, restart.attempt))?;
        for position in restart.redo.as_slice() {
            let position = position.0 as usize;
            let last = at(&self.lasts, position).saturating_add(1);
            put(&mut self.lasts, position, last)?;
        }
        Ok(())
    }

    // Why a fault is unused, if it is.
    fn unused(&self, fault: Fault) -> Option<Unused> {
        if self.struck.contains(&(fault.pos, fault.attempt)) {
            None
        } else if fault.pos as usize >= self.positions {
            Some(Unused::Position)
        } else if fault.attempt > at(&self.lasts, fault.pos as usize) {
            Some(Unused::Attempt)
        } else {
            Some(Unused::Undone)
        }
    }

    // Appends why faults are unused, if there are any.
    fn push_group(
        &self,
        text: &mut Vec<u8>,
        group: UnusedFaults,
        why: Unused,
    ) -> Result<(), AllocError> {
        let Some(first) = group.first else {
            return Ok(());
        };
        push_pieces(
            text,
            &[
                Word(b"hint: "),
                Number(group.count),
                Word(b" fault"),
                plural(group.count),
                Word(b" unused, first position "),
                Number(u64::from(first.pos)),
                Word(b" attempt "),
                Number(u64::from(first.attempt)),
            ],
        )?;
        match why {
            Unused::Position => {
                let last = self.positions.saturating_sub(1);
                push_between(text, b": the last position is ", last, b"\n")
            }
            Unused::Attempt => {
                let last = at(&self.lasts, first.pos as usize);
                push_between(text, b": its last attempt is ", last, b"\n")
            }
            Unused::Undone => text.extend_from_slice(
                b": a restart ends that attempt before the fault is found\n",
            ),
        }
    }
}

// Appends how many of these faults strike, and why the others are unused.
fn push_faults(
    text: &mut Vec<u8>,
    faults: &[Fault],
    attempts: &Attempts,
) -> Result<(), AllocError> {
    let (mut beyond, mut unmade, mut undone) = (NONE_YET, NONE_YET, NONE_YET);
    let mut strikes: u64 = 0;
    for fault in faults {
        match attempts.unused(*fault) {
            None => strikes = strikes.saturating_add(1),
            Some(Unused::Position) => beyond.add(*fault),
            Some(Unused::Attempt) => unmade.add(*fault),
            Some(Unused::Undone) => undone.add(*fault),
        }
    }
    let count = faults.len() as u64;
    push_pieces(
        text,
        &[
            Number(count),
            Word(b" fault"),
            plural(count),
            Word(b": "),
            Number(strikes),
            Word(if strikes == 1 {
                b" strikes"
            } else {
                b" strike"
            }),
            Word(b" in `gprs run`, "),
            Number(count.saturating_sub(strikes)),
            Word(b" unused\n"),
        ],
    )?;
    attempts.push_group(text, beyond, Unused::Position)?;
    attempts.push_group(text, unmade, Unused::Attempt)?;
    attempts.push_group(text, undone, Unused::Undone)
}

/// Appends how many of the faults that are listed strike where this run is made with them, and why the others do not, if
/// any are listed. The error is that memory is out.
pub fn push_strikes(
    alloc: Global,
    text: &mut Vec<u8>,
    request: &Request,
    run: &PlainRun,
) -> Result<(), AllocError> {
    let faults = request.faults.as_slice();
    if faults.is_empty() || run.order.len() > MOST_SUBTHREADS as usize {
        return Ok(());
    }
    let restarts = restarts_of(alloc, &run.order, &request.faults)?;
    let attempts = Attempts::new(alloc, run.order.len(), restarts.as_slice())?;
    push_faults(text, faults, &attempts)
}
