// The cells of lock arrays and of records, numbered in declared order, and the barriers.
ghost use Rattle.std.specs.Prelude.{◌≡◌, ◌+◌, ◌≤◌, map, option_map, position, IfOk};
ghost use Rattle.task_ast.specs.meaning.Names.{is_name, locks_of, records_of, barriers_of, cells_in, cell_number};
ghost use Rattle.lock_checker.specs.Accepted.{program_of};

use gp_base::Name;
use lock_checker::{CellRange, Checked};
use std::alloc::{AllocError, Global};
use task_ast::{Head, natural};

/// Whether two names are one.
pub fn same_name(x: &Name, y: &Name) -> bool
    ensures { result ≡ is_name x.now y.now }
{
    x.as_slice() == y.as_slice()
}

// The number of the cell at an index, or `None` outside the array.
fn cell_at(cells: CellRange, index: i64) -> Option<u32>
    requires { cells.first + cells.size ≤ 65536 }
    ensures { result ≡ option_map (λ n. cells.first + n) (Rattle.task_ast.specs.meaning.Names.place cells.size index) }
{
    if index >= 0 && index < i64::from(cells.size) {
        Some(cells.first + index as u32)
    } else {
        None
    }
}

/// How many lock cells there are.
pub fn lock_count(heads: &[Head]) -> usize
    requires { cells_in (locks_of heads.now) ≤ 65536 }
    ensures { result ≡ cells_in (locks_of heads.now) }
{
    let mut count: u64 = 0;
    for head in heads {
        if let Head::LockHead { size, .. } = head {
            count += natural(*size);
        }
    }
    count as usize
}

/// How many record cells there are.
pub fn record_count(heads: &[Head]) -> usize
    requires { cells_in (records_of heads.now) ≤ 65536 }
    ensures { result ≡ cells_in (records_of heads.now) }
{
    let mut count: u64 = 0;
    for head in heads {
        if let Head::RecHead { size, .. } = head {
            count += natural(*size);
        }
    }
    count as usize
}

/// The number of a lock cell, or `None` outside its array.
pub fn lock_number(program: &Checked, array: &Name, index: i64) -> Option<u32>
    requires { cells_in (locks_of (program_of program.now).heads) ≤ 65536 }
    ensures { result ≡ cell_number (locks_of (program_of program.now).heads) array.now index }
{
    cell_at(program.lock_array(array), index)
}

/// The number of a record cell, or `None` outside its record.
pub fn record_number(program: &Checked, r: &Name, index: i64) -> Option<u32>
    requires { cells_in (records_of (program_of program.now).heads) ≤ 65536 }
    ensures { result ≡ cell_number (records_of (program_of program.now).heads) r.now index }
{
    cell_at(program.record_array(r), index)
}

/// The stated numbers of the barriers.
pub fn barrier_numbers(alloc: Global, heads: &[Head]) -> Result<Vec<u64>, AllocError>
    ensures { IfOk result (λ numbers. numbers.items ≡ map (λ b. b.1) (barriers_of heads.now)) }
{
    let mut numbers = Vec::new(alloc);
    for head in heads {
        if let Head::BarrierHead { number, .. } = head {
            numbers.push(natural(*number))?;
        }
    }
    Ok(numbers)
}

/// The number of the barrier of this name, or `None` where there is none.
pub fn barrier_number(heads: &[Head], barrier: &Name) -> Option<usize>
    ensures { result ≡ position (λ other. is_name barrier.now other.0) (barriers_of heads.now) }
{
    let mut count: usize = 0;
    for head in heads {
        if let Head::BarrierHead { name, .. } = head {
            if same_name(barrier, name) {
                return Some(count);
            }
            count += 1;
        }
    }
    None
}
