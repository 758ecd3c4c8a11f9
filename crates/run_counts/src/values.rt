// Values of control variables that are kept of a run.

use gp_base::Name;
use std::alloc::{AllocError, Global};

// How many values are kept at most: room is made before the run, so that no slip needs memory.
const MOST_VALUES: usize = 4096;

/// Which of the values are those of one place in a run: from this one up to that one.
#[derive(Clone, Copy)]
pub struct Kept {
    from: usize,
    to: usize,
}

/// Values of control variables, those of one place in a run after those of another.
#[derive(Drop)]
pub struct Values {
    numbers: Vec<i64>,
    used: usize,
}

impl Values {
    /// Room for values, of which none is kept yet. The error is that memory is out.
    pub fn new(alloc: Global) -> Result<Values, AllocError> {
        Ok(Values {
            numbers: Vec::from_elem(alloc, 0, MOST_VALUES)?,
            used: 0,
        })
    }

    /// Keeps the values of these variables, or nothing where there is no more room for them.
    pub fn keep(&mut self, names: &[(Name, i64)]) -> Option<Kept> {
        let from = self.used;
        let to = from.saturating_add(names.len());
        if to > self.numbers.len() {
            return None;
        }
        for pair in names {
            if let Some(number) = self.numbers.get_mut(self.used) {
                *number = pair.1;
            }
            self.used = self.used.saturating_add(1);
        }
        Some(Kept { from, to })
    }

    /// The values that were kept of a place.
    pub fn get(&self, kept: Kept) -> Option<&[i64]> {
        self.numbers.get(kept.from..kept.to)
    }
}
