// The beginning of a run.

ghost use Rattle.std.specs.Prelude.{◌≡◌, [], length, IfOk};
ghost use Rattle.task_ast.specs.meaning.Names.{registers_of};
ghost use Rattle.task_ast.specs.meaning.Layout.{layout};
ghost use Rattle.task_ast.specs.meaning.Plain.{main_number, main_task, task_at};
ghost use Rattle.task_ast.specs.Plain.{opening};
ghost use Rattle.task_code.specs.Flat.{code_of};
ghost use Rattle.task_code.specs.Reading.{start_place};
ghost use Rattle.record_store.specs.Stored.{with_thread, without_threads};
ghost use Rattle.subthread.specs.Tasks.{program_in};
ghost use Rattle.gp_resume.specs.inner.Course.{spot_place, IsSuited, StartsAlone, Stands};

use crate::course::{Course, ResumePlan, Spot};
use gp_base::{At, Nums, ThreadNo};
use record_store::Store;
use std::alloc::{AllocError, Global};
use task_ast::{Layout, Next, SyncOp};
use task_code::Code;
use token_order::Ring;

// How many registers a task has; one that isn't there has `$ret` alone.
pub(crate) fn registers(code: &Code, task: u32) -> u32
    ensures { result ≡ length (registers_of (task_at (code_of code.now).program task)) }
{
    match code.shape(task) {
        Some(shape) => shape.regs,
        None => 1,
    }
}

// The ring with thread 0 at the start of `main`.
fn ring_of(alloc: Global, plan: &ResumePlan, cells: &Layout) -> Result<Ring, AllocError>
    requires suits { IsSuited plan.now }
    requires layout { cells.now ≡ layout (program_in plan.now.work.now).heads }
    ensures { IfOk result (λ ring. ring.table ≡ (opening (program_in plan.now.work.now) plan.now.inputs.value plan.now.limits).table) }
{
    let locks = cells.under.len() as u32;
    let barriers = plan.work.code.barriers().copied(alloc)?;
    let start = Next {
        sync: SyncOp::Start,
        line: 0,
    };
    let ring = Ring::new(alloc, locks, barriers, plan.limits.subthreads, start)?;
    Ok(ring)
}

// The store with the records and the registers of thread 0.
fn store_of(
    alloc: Global,
    plan: &ResumePlan,
    cells: Layout,
    records: Nums,
) -> Result<Store, AllocError>
    requires suits { IsSuited plan.now }
    requires layout { cells ≡ layout (program_in plan.now.work.now).heads }
    requires records { records ≡ plan.now.inputs.value.records }
    ensures { IfOk result (λ store. store ≡ with_thread (length (registers_of (main_task (program_in plan.now.work.now)))) (without_threads records cells.under)) }
{
    let code = &plan.work.code;
    let mut store = Store::new(alloc, records, cells, plan.work.recheck.is_on())?;
    store.reserve_thread(alloc, registers(code, code.main()))?;
    Ok(store)
}

// Where thread 0 starts.
fn first_spot(alloc: Global, plan: &ResumePlan) -> Result<Spot, AllocError>
    ensures { IfOk result (λ spot. spot_place spot ≡ start_place (program_in plan.now.work.now) (main_number (program_in plan.now.work.now)) 0 []) }
{
    let code = &plan.work.code;
    let task = code.main();
    let ctl = code.start_values(alloc, task, &Nums::new(alloc))?;
    Ok(Spot {
        at: At { task, pc: 0 },
        ctl,
        me: ThreadNo(0),
    })
}

// Where the threads start, of which thread 0 is the only one.
fn first_spots(alloc: Global, plan: &ResumePlan) -> Result<Vec<Spot>, AllocError>
    ensures { IfOk result (λ spots. StartsAlone (program_in plan.now.work.now) spots.items) }
{
    let spot = first_spot(alloc, plan)?;
    let mut spots = Vec::new(alloc);
    spots.push(spot)?;
    Ok(spots)
}

/// No subthread has begun. The error is that memory is out.
pub fn begin(
    alloc: Global,
    plan: &ResumePlan,
    cells: Layout,
    records: Nums,
) -> Result<Course, AllocError>
    requires suits { IsSuited plan.now }
    requires layout { cells ≡ layout (program_in plan.now.work.now).heads }
    requires records { records ≡ plan.now.inputs.value.records }
    ensures { IfOk result (Stands plan.now (opening (program_in plan.now.work.now) plan.now.inputs.value plan.now.limits)) }
{
    let ring = ring_of(alloc, plan, &cells)?;
    let store = store_of(alloc, plan, cells, records)?;
    let spots = first_spots(alloc, plan)?;
    Ok(Course {
        ring,
        spots,
        store,
        issued: 0,
    })
}
