// The texts of queries.
ghost use Rattle.std.specs.Prelude.{◌≡◌, ◌++◌, string_bytes, IfOk, IfErr, OnOk};
ghost use Rattle.db_names.specs.Tables.{table_of};
ghost use Rattle.db_tables.specs.Faults.{IsPlain};
ghost use Rattle.db_tables.specs.Queries as spec;

use crate::fault::TableFault;
use db_names::{Shape, Source, table_of};
use std::alloc::{AllocError, Global};

/// The queries by which a table is read: the whole table, whose columns are seen, and what is read of it.
#[derive(Drop)]
pub struct Query {
    pub whole: String,
    pub select: String,
}

/// The queries for a source.
pub fn query_of(alloc: Global, source: &Source) -> Result<Query, TableFault>
    ensures whole { IfOk result (λ query. string_bytes query.whole ≡ spec.whole_of (table_of source.now.file)) }
    ensures select { IfOk result (λ query. string_bytes query.select ≡ spec.select_of source.now) }
    ensures cause { IfErr result IsPlain }
{
    let table = table_of(source.file.as_slice());
    let whole = whole_of(alloc, table)?;
    let select = select_of(alloc, table, &source.shape)?;
    Ok(Query {
        whole: text_of(alloc, whole.as_slice())?,
        select: text_of(alloc, select.as_slice())?,
    })
}

// The bytes as text.
fn text_of(alloc: Global, bytes: &[u8]) -> Result<String, TableFault>
    ensures text { IfOk result (λ text. string_bytes text ≡ bytes.now) }
    ensures cause { IfErr result IsPlain }
{
    match str::from_utf8(bytes) {
        Ok(text) => Ok(String::from_str(alloc, text)?),
        Err(_) => Err(TableFault::BadName),
    }
}

// The query that shows a whole table.
fn whole_of(alloc: Global, table: &[u8]) -> Result<Vec<u8>, AllocError>
    ensures { IfOk result (λ sql. sql.items ≡ spec.whole_of table.now) }
{
    let mut sql = Vec::from_slice(alloc, b"select * from ")?;
    push_quoted(&mut sql, table)?;
    Ok(sql)
}

// The query that shows what is read of a table.
fn select_of(alloc: Global, table: &[u8], shape: &Shape) -> Result<Vec<u8>, AllocError>
    ensures { IfOk result (λ sql. sql.items ≡ spec.select_from table.now shape.now) }
{
    match shape {
        Shape::Cells { .. } => joined(alloc, b"select cell, value from ", table, b" order by cell"),
        Shape::Rows { .. } => joined(alloc, b"select * from ", table, b" order by 1"),
    }
}

// A query of a table between these words.
fn joined(alloc: Global, before: &[u8], table: &[u8], after: &[u8]) -> Result<Vec<u8>, AllocError>
    ensures { IfOk result (λ sql. sql.items ≡ before.now ++ spec.quoted table.now ++ after.now) }
{
    let mut sql = Vec::from_slice(alloc, before)?;
    push_quoted(&mut sql, table)?;
    sql.extend_from_slice(after)?;
    Ok(sql)
}

/// Adds a name in quotes, with each quote in it doubled.
#[tactic(auto, using(crate::proofs::Quotes::byte_more, crate::proofs::Quotes::quote_end))]
pub fn push_quoted(sql: &mut Vec<u8>, name: &[u8]) -> Result<(), AllocError>
    ensures { OnOk result (sql.new.items ≡ sql.old.items ++ spec.quoted name.now) }
{
    sql.extend_from_slice(b"\"")?;
    for byte in name {
        push_byte(sql, *byte)?;
    }
    sql.extend_from_slice(b"\"")
}

// Adds a byte of a name in quotes.
fn push_byte(sql: &mut Vec<u8>, byte: u8) -> Result<(), AllocError>
    ensures { OnOk result (sql.new.items ≡ sql.old.items ++ spec.doubled byte) }
{
    if byte == b'"' {
        sql.extend_from_slice(b"\"\"")
    } else {
        sql.extend_from_slice(&[byte])
    }
}
