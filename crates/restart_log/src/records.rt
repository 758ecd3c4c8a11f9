// The lines of records.
ghost use Rattle.std.specs.Prelude.{◌≡◌, ◌++◌, [], ◌∷◌, drop, min, flat_map, IfOk, OnOk};
ghost use Rattle.task_ast.specs.meaning.Names.{natural, records_of, cells_in};
ghost use Rattle.task_ast.specs.meaning.Layout.{cut};
ghost use Rattle.restart_log.specs.meaning.Tail.{record_line};

use crate::lines::push_spaced;
use gp_base::Name;
use std::alloc::AllocError;
use task_ast::Head;

// Appends the line of a record.
fn push_record(text: &mut Vec<u8>, name: &Name, cells: &[i64]) -> Result<(), AllocError>
    ensures { OnOk result (text.new.items ≡ text.old.items ++ record_line (name.now, cells.now)) }
{
    text.extend_from_slice(name.as_slice())?;
    text.extend_from_slice(b":")?;
    push_spaced(text, cells)?;
    text.extend_from_slice(b"\n")
}

// A size as a number, or `most` where it is larger; a negative one counts as 0.
fn size_up_to(size: &i64, most: usize) -> usize
    ensures { result ≡ min (natural size.now) most }
{
    if *size < 0 {
        0
    } else {
        (*size as u64).min(most as u64) as usize
    }
}

// Appends the line of a record that this head declares, where these are the cells from its first on. The answer is the
// cells after it.
fn push_head<'a>(text: &mut Vec<u8>, head: &Head, cells: &'a [i64]) -> Result<&'a [i64], AllocError>
    ensures text { OnOk result (text.new.items ≡ text.old.items ++ flat_map record_line (cut (records_of (head.now ∷ [])) cells.entry.now)) }
    ensures rest { IfOk result (λ rest. rest.now ≡ drop (cells_in (records_of (head.now ∷ []))) cells.entry.now) }
{
    match head {
        Head::RecHead { name, size, .. } => {
            let (own, rest) = cells.split_at(size_up_to(size, cells.len()));
            push_record(text, name, own)?;
            Ok(rest)
        }
        _ => Ok(cells),
    }
}

/// Appends the lines of the records that these heads declare, whose cells follow one another.
pub fn push_records(text: &mut Vec<u8>, heads: &[Head], cells: &[i64]) -> Result<(), AllocError>
    ensures { OnOk result (text.new.items ≡ text.old.items ++ flat_map record_line (cut (records_of heads.now) cells.now)) }
{
    let mut rest = cells;
    for head in heads {
        rest = push_head(text, head, rest)?;
    }
    Ok(())
}
