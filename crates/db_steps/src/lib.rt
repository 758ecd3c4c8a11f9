//! The statements of a transaction, each with what it did and with what any of them keeps: the last commit stays, a
//! statement that was answered leaves the transaction open, and a crash finds nothing new.
#![tactic(auto)]

ghost use Rattle.std.specs.Prelude.{◌≡◌, [], IsTrue, IfOk, IfErr};
ghost use Rattle.std.specs.Result.{is_ok};
ghost use Rattle.sqlite.specs.Held.{state};
ghost use Rattle.sqlite.specs.Listing.{understood};
ghost use Rattle.sqlite.specs.State.{HasCleanDisk, IsNotRun, ExecutesInside};
ghost use Rattle.sqlite.specs.Steps.{Outlines};
ghost use Rattle.sqlite.specs.Values.{bound};
ghost use Rattle.db_steps.specs.Shows.{Shows};
ghost use Rattle.db_steps.specs.Steps.{IsStep};

use sqlite::types::ValueRef;
use sqlite::{Alter, Error, Row, Statement, Transaction};

/// The rows that a query shows.
pub fn select<S: Alter>(
    tx: &mut Transaction<'_, S>,
    sql: &str,
    params: &[ValueRef<'_>],
) -> Result<Vec<Row>, Error>
    ensures same_reference { tx.new.conn.ghost_name ≡ tx.old.conn.ghost_name }
    ensures step { IsStep S.Store tx.old.conn.now tx.new.conn.now (is_ok result) }
    ensures shown { HasCleanDisk (state S.Store tx.new.conn.now) →
        IfOk result (λ rows. Shows S.Store sql.now (bound params.now) (state S.Store tx.old.conn.now).now (state S.Store tx.new.conn.now).now rows.items) }
{
    tx.query_all(sql, params)
}

/// Runs a statement that shows no rows. Tells how many rows it wrote.
pub fn change<S: Alter>(
    tx: &mut Transaction<'_, S>,
    sql: &str,
    params: &[ValueRef<'_>],
) -> Result<usize, Error>
    ensures same_reference { tx.new.conn.ghost_name ≡ tx.old.conn.ghost_name }
    ensures step { IsStep S.Store tx.old.conn.now tx.new.conn.now (is_ok result) }
    ensures ran { HasCleanDisk (state S.Store tx.new.conn.now) → IsTrue tx.old.conn.now.in_transaction →
        ExecutesInside 0 sql.now (bound params.now) (state S.Store tx.old.conn.now) (state S.Store tx.new.conn.now) result }
{
    tx.execute(sql, params)
}

/// A statement before it runs, with the names of the columns that it shows.
pub fn outline<S: Alter>(tx: &mut Transaction<'_, S>, sql: &str) -> Result<Statement, Error>
    ensures same_reference { tx.new.conn.ghost_name ≡ tx.old.conn.ghost_name }
    ensures step { IsStep S.Store tx.old.conn.now tx.new.conn.now (is_ok result) }
    ensures outlined { HasCleanDisk (state S.Store tx.new.conn.now) →
        IfOk result (Outlines (understood (state S.Store tx.old.conn.now).now.schema sql.now)) }
    ensures unchanged { HasCleanDisk (state S.Store tx.new.conn.now) →
        IfOk result (λ _. (state S.Store tx.new.conn.now).now ≡ (state S.Store tx.old.conn.now).now) }
    ensures refused { HasCleanDisk (state S.Store tx.new.conn.now) →
        IfErr result (IsNotRun (state S.Store tx.old.conn.now) (state S.Store tx.new.conn.now) sql.now []) }
{
    tx.prepare(sql)
}
