// Copies of what a store is made of.

ghost use Rattle.std.specs.Prelude.{◌≡◌, false, map, All, IfOk};
ghost use Rattle.record_store.specs.inner.Shelves.{is_away};

use crate::Summed;
use crate::shelf::CellShelf;
use std::alloc::{AllocError, Global};

/// A copy of each list.
pub fn copy_lists(alloc: Global, lists: &[Summed]) -> Result<Vec<Summed>, AllocError>
    ensures { IfOk result (λ copies. copies.items ≡ lists.now) }
{
    let mut copies = Vec::new(alloc);
    for list in lists {
        copies.push(list.copied(alloc)?)?;
    }
    Ok(copies)
}

/// A copy of each shelf, which is at home.
pub fn copy_shelves(alloc: Global, shelves: &[CellShelf]) -> Result<Vec<CellShelf>, AllocError>
    requires { All (λ away. away ≡ false) (map is_away shelves.now) }
    ensures { IfOk result (λ copies. copies.items ≡ shelves.now) }
{
    let mut copies = Vec::new(alloc);
    for shelf in shelves {
        let cells = match shelf {
            CellShelf::Home(cells) => cells.copied(alloc)?,
            CellShelf::Lent(_) => unreachable!(),
        };
        copies.push(CellShelf::Home(cells))?;
    }
    Ok(copies)
}
