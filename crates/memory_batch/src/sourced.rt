// The cells of the records that come from files, head by head.
ghost use Rattle.std.specs.Prelude.{◌≡◌, ◌++◌, [], ◌∷◌, drop, IfOk, OnOk};
ghost use Rattle.task_ast.specs.meaning.Names.{records_of, cells_in};
ghost use Rattle.task_ast.specs.meaning.Layout.{cut};
ghost use Rattle.memory_batch.specs.Sourced as spec;

use gp_base::{Name, Nums, Seq};
use std::alloc::{AllocError, Global};
use task_ast::{Head, natural};

// Appends the cells of a record, where it comes from a file.
fn push_own(
    alloc: Global,
    found: &mut Seq<Nums>,
    from: &Option<Name>,
    cells: &[i64],
) -> Result<(), AllocError>
    ensures { OnOk result (found.new ≡ found.old ++ spec.own_cells from.now cells.now) }
{
    match from {
        Some(_) => {
            found.push(Nums::from_slice(alloc, cells)?)?;
            Ok(())
        }
        None => Ok(()),
    }
}

// Appends the cells of a record that this head declares, where it comes from a file and these are the cells from its first on, and
// none for a feed. The answer is the cells after the record.
fn push_head<'a>(
    alloc: Global,
    found: &mut Seq<Nums>,
    head: &Head,
    cells: &'a [i64],
) -> Result<&'a [i64], AllocError>
    ensures found { OnOk result (found.new ≡ found.old ++ spec.sourced (head.now ∷ []) (cut (records_of (head.now ∷ [])) cells.entry.now)) }
    ensures rest { IfOk result (λ rest. rest.now ≡ drop (cells_in (records_of (head.now ∷ []))) cells.entry.now) }
{
    match head {
        Head::RecHead { size, from, .. } => {
            let most = natural(*size).min(cells.len() as u64) as usize;
            let (own, rest) = cells.split_at(most);
            push_own(alloc, found, from, own)?;
            Ok(rest)
        }
        Head::FeedHead { .. } => {
            found.push(Nums::new(alloc))?;
            Ok(cells)
        }
        _ => Ok(cells),
    }
}

/// For each of these heads that names a file, the cells of its record, where these are the cells of all records. Those of a feed are
/// none.
pub fn sourced(alloc: Global, heads: &[Head], cells: &[i64]) -> Result<Seq<Nums>, AllocError>
    ensures { IfOk result (λ found. found ≡ spec.sourced heads.now (cut (records_of heads.now) cells.now)) }
{
    let mut found = Seq::new(alloc);
    let mut rest = cells;
    for head in heads {
        rest = push_head(alloc, &mut found, head, rest)?;
    }
    Ok(found)
}
