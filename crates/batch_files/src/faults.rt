// Files of faults: the position, the attempt, the delay and the mask of a fault in each row.
ghost use Rattle.std.specs.Prelude.{◌≡◌, IfOk, IfSome};
ghost use Rattle.std.specs.List.{list_any};
ghost use Rattle.csv.specs.Records.{fields_of};
ghost use Rattle.gp_base.specs.meaning.Faults.{strikes_same};
ghost use Rattle.gp_base.specs.Faults.{IsInRange};
ghost use Rattle.batch_files.specs.meaning.Rows.{csv_rows};
ghost use Rattle.batch_files.specs.meaning.Faults as spec;
ghost use Rattle.batch_files.specs.Faults.{AreFaults};
ghost use Rattle.batch_files.specs.Answers.{Answers};

use crate::fault::{FileFault, FileKind, RowFault};
use crate::numbers::{natural_below, number_at};
use crate::rows::{Table, put_rows};
use csv::ByteRecord;
use gp_base::limits::{LONGEST_DELAY, MOST_FAULTS};
use gp_base::{Fault, Faults, Text};
use std::alloc::Global;

/// The faults of a file whose rows are a position, an attempt, a delay and a mask. `Bad` tells the first row that
/// breaks a rule, with the first rule that it breaks: four fields, which are numbers; a position and an attempt below
/// 2^32, a delay of at most `LONGEST_DELAY` and a mask that is not 0; a position and an attempt that no earlier row has
/// together; and at most `MOST_FAULTS` rows.
pub fn read_faults(alloc: Global, bytes: &Text) -> Result<Faults, FileFault>
    ensures { Answers (λ faults. faults.list) result (spec.faults_by (csv_rows bytes.now)) }
{
    put_rows(alloc, bytes.as_slice(), Faults::none(alloc))
}

// The fault of a row, or the first rule that the row breaks by itself.
fn fault_of(row: &ByteRecord) -> Result<Fault, FileKind>
    ensures value { result ≡ spec.fault_of (fields_of row.now) }
    ensures range { IfOk result IsInRange }
{
    if row.len() != 4 {
        return Err(FileKind::Fields);
    }
    let (Some(position), Some(attempt)) = (number_at(row, 0), number_at(row, 1)) else {
        return Err(FileKind::Number);
    };
    let (Some(delay), Some(mask)) = (number_at(row, 2), number_at(row, 3)) else {
        return Err(FileKind::Number);
    };
    fault_in(position, attempt, delay, mask).ok_or(FileKind::Range)
}

// The fault of these numbers, where each is in its range.
fn fault_in(position: i64, attempt: i64, delay: i64, mask: i64) -> Option<Fault>
    ensures value { result ≡ spec.fault_in position attempt delay mask }
    ensures range { IfSome result IsInRange }
{
    let pos = natural_below(1 << 32, position)? as u32;
    let attempt = natural_below(1 << 32, attempt)? as u32;
    let delay = natural_below(LONGEST_DELAY as u64 + 1, delay)? as u32;
    if mask == 0 {
        return None;
    }
    Some(Fault {
        pos,
        attempt,
        delay,
        mask,
    })
}

// Whether one of the faults strikes the same attempt as another.
fn is_struck(faults: &[Fault], fault: &Fault) -> bool
    ensures { result ≡ list_any (strikes_same fault.now) faults.now }
{
    faults.iter().any(|other| fault.pos == other.pos && fault.attempt == other.attempt)
}

impl Table for Faults {
    ghost rule = { λ begun. spec.fault_rule };

    ghost holds = { λ begun faults rows. AreFaults rows faults.list };

    fn put(&mut self, row: &ByteRecord) -> Result<(), RowFault> {
        let fault = fault_of(row)?;
        if is_struck(self.as_slice(), &fault) {
            return Err(RowFault::Breaks(FileKind::Twice));
        }
        if self.list.len() >= MOST_FAULTS {
            return Err(RowFault::Breaks(FileKind::TooMany));
        }
        self.list.push(fault)?;
        Ok(())
    }
}
