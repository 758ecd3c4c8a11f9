// Why a table can't be read.
ghost use Rattle.std.specs.Prelude.{◌≡◌};
ghost use Rattle.db_tables.specs.declared.fault.TableFault.TheVariants.{OutOfMemory};
ghost use Rattle.db_tables.specs.Faults.{fault_of};

use sqlite::{Error, ErrorCode};
use sqlite_resolve::CompileError;
use std::alloc::AllocError;

/// A column of the table of a record.
#[derive(Clone, Copy, Debug, PartialEq, Eq)]
pub enum Column {
    Cell,
    Value,
}

/// Why a table can't be read: its name is no text; there is none; a record's has no such column; the row of this number,
/// from 1, does not come in order; the kit does not read it; memory is out.
#[derive(Clone, Copy, Debug, PartialEq, Eq)]
pub enum TableFault {
    BadName,
    NoTable,
    NoColumn(Column),
    Order(usize),
    Unreadable(Error),
    OutOfMemory,
}

impl From<AllocError> for TableFault {
    ghost from_gives = { λ _ e. e ≡ OutOfMemory };

    fn from(_: AllocError) -> Self {
        TableFault::OutOfMemory
    }
}

/// Which of the tables can't be read, from 0, and why.
#[derive(Clone, Copy, Debug, PartialEq, Eq)]
pub struct SourceFault {
    pub source: usize,
    pub fault: TableFault,
}

/// What an error of the database means for a table that it has.
pub fn fault_of(error: Error) -> TableFault
    ensures { result ≡ fault_of error }
{
    match error {
        Error::SqliteFailure(ErrorCode::OutOfMemory) => TableFault::OutOfMemory,
        Error::SqlInputError(CompileError::OutOfMemory) => TableFault::OutOfMemory,
        _ => TableFault::Unreadable(error),
    }
}
