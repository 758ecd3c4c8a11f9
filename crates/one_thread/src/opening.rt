// The start of a run.
ghost use Rattle.std.specs.Prelude.{◌≡◌, ◌≤◌, [], ◌∷◌, ◌++◌, map, zip, unwrap_or, position, IfOk, OnOk};
ghost use Rattle.task_ast.specs.meaning.Names.{feeds_of, records_of, cells_in, is_name};
ghost use Rattle.task_ast.specs.meaning.Declarations.{main};
ghost use Rattle.task_ast.specs.meaning.State.{number_at};
ghost use Rattle.task_ast.specs.meaning.Table.{numbers};
ghost use Rattle.task_ast.specs.Plain.{opening};
ghost use Rattle.task_ast.specs.View.{plain_program};
ghost use Rattle.one_thread.specs.Runs.{slots_of, Holds, IsSmall};
ghost use Rattle.one_thread.specs.inner.Start.{IsFirst};
ghost use Rattle.lock_checker.specs.Accepted.{program_of};

use crate::cells::{barrier_numbers, lock_count, record_count};
use crate::seats::Table;
use crate::threads::{Run, new_thread};
use crate::variables::{number_at, register_names, zeros};
use crate::walk::Walk;
use crate::work::Shared;
use gp_base::{Feed, Inputs, Limits, Name, Nums, Seq};
use lock_checker::Checked;
use std::alloc::{AllocError, Global};
use task_ast::{Head, TaskText};

/// The names of each task's registers.
pub fn all_registers(alloc: Global, tasks: &[TaskText]) -> Result<Vec<Seq<Name>>, AllocError>
    ensures { IfOk result (λ slots. slots.items ≡ map slots_of tasks.now) }
{
    let mut slots = Vec::new(alloc);
    for task in tasks {
        slots.push(register_names(alloc, task)?)?;
    }
    Ok(slots)
}

// The same feed.
fn copy_of(alloc: Global, feed: &Feed) -> Result<Feed, AllocError>
    ensures { IfOk result (λ copy. copy ≡ feed.now) }
{
    Ok(Feed::new(feed.fields, feed.cells.copied(alloc)?))
}

// Adds a feed beside its name.
fn add_feed(
    alloc: Global,
    named: &mut Seq<(Name, Feed)>,
    name: &Name,
    feed: &Feed,
) -> Result<(), AllocError>
    ensures { OnOk result (named.new ≡ named.old ++ (name.now, feed.now) ∷ []) }
{
    let name = name.copied(alloc)?;
    let feed = copy_of(alloc, feed)?;
    named.push((name, feed))
}

// The feeds by name.
fn named_feeds(
    alloc: Global,
    heads: &[Head],
    feeds: &[Feed],
) -> Result<Seq<(Name, Feed)>, AllocError>
    ensures { IfOk result (λ named. named ≡ zip (feeds_of heads.now) feeds.now) }
{
    let mut named = Seq::new(alloc);
    let mut count: usize = 0;
    for head in heads {
        if let Head::FeedHead { name, .. } = head {
            let Some(feed) = feeds.get(count) else {
                return Ok(named);
            };
            add_feed(alloc, &mut named, name, feed)?;
            count += 1;
        }
    }
    Ok(named)
}

// The cells of all records at the start.
fn first_cells(alloc: Global, count: usize, records: &[i64]) -> Result<Nums, AllocError>
    ensures { IfOk result (λ cells. cells ≡ map (number_at records.now) (numbers 0 count)) }
{
    let mut cells = Seq::new(alloc);
    for c in 0..count {
        cells.push(number_at(records, c))?;
    }
    Ok(cells)
}

// The number of the task `main`.
fn main_place(tasks: &[TaskText]) -> Option<usize>
    ensures { result ≡ position (λ task. is_name main task.name) tasks.now }
{
    tasks
        .iter()
        .position(|task| b"main".as_slice() == task.name.as_slice())
}

// The thread at the start of the task `main`.
fn main_thread<'a>(
    alloc: Global,
    program: &'a Checked,
    slots: &'a [Seq<Name>],
) -> Result<Walk<'a>, AllocError>
    requires { slots.now ≡ map slots_of (program_of program.now).tasks }
    ensures { IfOk result (IsFirst (program_of program.now)) }
{
    let main = main_place(program.program().tasks.as_slice()).unwrap_or(0);
    let Some(names) = slots.get(main) else {
        return Err(AllocError);
    };
    let registers = zeros(alloc, names.len())?;
    new_thread(alloc, program, slots, main, 0, &[], registers)
}

// What all threads share at the start.
fn first_shared(alloc: Global, heads: &[Head], inputs: &Inputs) -> Result<Shared, AllocError>
    requires { cells_in (records_of heads.now) ≤ 65536 }
    ensures cells { IfOk result (λ shared. shared.cells ≡ map (number_at inputs.now.records) (numbers 0 (cells_in (records_of heads.now)))) }
    ensures feeds { IfOk result (λ shared. shared.feeds ≡ zip (feeds_of heads.now) inputs.now.feeds) }
{
    let cells = first_cells(alloc, record_count(heads), inputs.records.as_slice())?;
    let feeds = named_feeds(alloc, heads, inputs.feeds.as_slice())?;
    Ok(Shared { cells, feeds })
}

impl<'a> Run<'a> {
    /// The run before its first subthread.
    pub fn new(
        alloc: Global,
        program: &'a Checked,
        slots: &'a [Seq<Name>],
        inputs: &Inputs,
        limits: Limits,
    ) -> Result<Run<'a>, AllocError>
        requires small { IsSmall (program_of program.now) }
        requires slots { slots.now ≡ map slots_of (program_of program.now).tasks }
        ensures { IfOk result (λ run. Holds (program_of program.now) inputs.now limits run (opening (plain_program (program_of program.now)) inputs.now limits)) }
    {
        let heads = program.program().heads.as_slice();
        let thread = main_thread(alloc, program, slots)?;
        let mut threads = Vec::new(alloc);
        threads.push(thread)?;
        let barriers = barrier_numbers(alloc, heads)?;
        let shared = first_shared(alloc, heads, inputs)?;
        let table = Table::new(alloc, limits.subthreads, barriers, lock_count(heads))?;
        Ok(Run {
            program,
            slots,
            turns: limits.turns,
            table,
            threads,
            shared,
        })
    }
}
