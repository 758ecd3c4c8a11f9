// The text of rows.
ghost use Rattle.std.specs.Prelude.{◌≡◌, [], ◌∷◌, ◌++◌, map, drop, IfOk, OnOk};
ghost use Rattle.csv.specs.Records.{fields_of, partial_of};
ghost use Rattle.csv.specs.Writing.{read_back};
ghost use Rattle.batch_files.specs.meaning.Rows.{csv_rows};
ghost use Rattle.sqlite_value.specs.Order.{column};
ghost use Rattle.db_rows.specs.Csv as spec;

use csv::{ByteRecord, WriterBuilder};
use gp_base::Text;
use itoa::Buffer;
use sqlite::Row;
use sqlite::types::ValueRef;
use std::alloc::{AllocError, Global};

/// The file of the rows of a query, without their first `skip` columns: each field has the digits of a whole number of 64
/// bits, and is empty where there is another value. The rows of a query have one length, so nothing but memory can fail.
#[tactic(auto, using(crate::proofs::ReadBack::csv_reads_back))]
pub fn csv_of(alloc: Global, rows: &[Row], skip: usize) -> Result<Text, AllocError>
    ensures text { IfOk result (λ text. text ≡ spec.csv_of skip rows.now) }
    ensures reads_back { IfOk result (λ text. csv_rows text ≡ map read_back (spec.fields_in skip rows.now)) }
{
    let bytes = written(alloc, rows, skip)?;
    Ok(Text::from_vec(bytes))
}

// What the writer writes of the rows.
fn written(alloc: Global, rows: &[Row], skip: usize) -> Result<Vec<u8>, AllocError>
    ensures { IfOk result (λ bytes. bytes.items ≡ spec.csv_of skip rows.now) }
{
    let mut writer = WriterBuilder::new().from_writer(Vec::new(alloc));
    let mut fields = ByteRecord::new(alloc);
    for row in rows {
        fill(&mut fields, row, skip)?;
        let Ok(()) = writer.write_byte_record(&fields) else {
            return Err(AllocError);
        };
    }
    match writer.into_inner() {
        Ok(bytes) => Ok(bytes),
        Err(_) => Err(AllocError),
    }
}

// Puts the fields of a row into a record, without the first `skip`.
fn fill(fields: &mut ByteRecord, row: &Row, skip: usize) -> Result<(), AllocError>
    ensures { OnOk result (fields_of fields.new ≡ map spec.field_of (drop skip row.now)) }
{
    fields.clear();
    for at in skip..row.column_count() {
        push_value(fields, row, at)?;
    }
    Ok(())
}

// Adds the field of a value to a record.
fn push_value(fields: &mut ByteRecord, row: &Row, at: usize) -> Result<(), AllocError>
    ensures fields { OnOk result (partial_of fields.old ≡ [] → fields_of fields.new ≡ fields_of fields.old ++ spec.field_of (column row.now at) ∷ []) }
    ensures partial { OnOk result (partial_of fields.new ≡ []) }
{
    match row.get_ref(at) {
        Ok(ValueRef::Int(number)) => fields.push_field(Buffer::new().format(number).as_bytes()),
        Ok(_) => fields.push_field(b""),
        Err(_) => fields.push_field(b""),
    }
}
