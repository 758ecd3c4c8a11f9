// A run that begins.

ghost use Rattle.std.specs.Prelude.{◌≡◌, ◌<◌, ◌^◌, false, [], length, IfOk};
ghost use Rattle.task_ast.specs.declared.sync.SyncOp.TheVariants as sync;
ghost use Rattle.task_ast.specs.meaning.Names.{registers_of};
ghost use Rattle.task_ast.specs.meaning.Plain.{main_task, start_point, task_at};
ghost use Rattle.task_ast.specs.Plain.{opening};
ghost use Rattle.task_code.specs.Flat.{code_of};
ghost use Rattle.record_store.specs.Stored.{with_thread, without_threads};
ghost use Rattle.subthread.specs.Tasks.{Suits};
ghost use Rattle.whole_run.specs.View.{program_in, begun};
ghost use Rattle.whole_run.specs.Recovering.{HasCuts};
ghost use Rattle.whole_run.specs.inner.Kept.{batch_in, view_of, IsPlaceIn, Kept};

use crate::parts::{Backup, Parts, Place, Plan};
use gp_base::{At, Nums, Room};
use record_store::Store;
use reorder_list::Rol;
use std::alloc::{AllocError, Global};
use task_ast::{Layout, Next, SyncOp};
use task_code::Code;
use token_order::Ring;

/// How many registers a task has; one that isn't there has `$ret` alone.
fn registers(code: &Code, task: u32) -> u32
    ensures { result ≡ length (registers_of (task_at (code_of code.now).program task)) }
{
    match code.shape(task) {
        Some(shape) => shape.regs,
        None => 1,
    }
}

/// The ring with thread 0 at the start of `main`.
fn ring_of(alloc: Global, plan: &Plan, layout: &Layout) -> Result<Ring, AllocError>
    requires { Suits (batch_in plan.now).work layout.now (batch_in plan.now).inputs (batch_in plan.now).limits }
    ensures table { IfOk result (λ ring. ring.table ≡ (opening (program_in (batch_in plan.now)) (batch_in plan.now).inputs (batch_in plan.now).limits).table) }
    ensures closed { IfOk result (λ ring. ring.cleared ≡ false) }
{
    let locks = layout.under.len() as u32;
    let barriers = plan.work.code.barriers().copied(alloc)?;
    let start = Next {
        sync: SyncOp::Start,
        line: 0,
    };
    let ring = Ring::new(alloc, locks, barriers, plan.limits.subthreads, start)?;
    Ok(ring)
}

/// The store with the records and the registers of thread 0.
fn store_of(alloc: Global, plan: &Plan, layout: Layout, records: Nums) -> Result<Store, AllocError>
    requires suits { Suits (batch_in plan.now).work layout (batch_in plan.now).inputs (batch_in plan.now).limits }
    requires records { records ≡ (batch_in plan.now).inputs.records }
    ensures { IfOk result (λ store. store ≡ with_thread (length (registers_of (main_task (program_in (batch_in plan.now))))) (without_threads records layout.under)) }
{
    let code = &plan.work.code;
    let mut store = Store::new(alloc, records, layout, plan.work.recheck.is_on())?;
    store.reserve_thread(alloc, registers(code, code.main()))?;
    Ok(store)
}

/// Where thread 0 starts.
fn first_place(alloc: Global, plan: &Plan) -> Result<Place, AllocError>
    ensures { IfOk result (λ place. IsPlaceIn (batch_in plan.now) 0 sync.Start place (start_point (main_task (program_in (batch_in plan.now))) 0 [])) }
{
    let code = &plan.work.code;
    let task = code.main();
    let ctl = code.start_values(alloc, task, &Nums::new(alloc))?;
    let at = At { task, pc: 0 };
    Ok(Place { at, ctl })
}

/// Nothing was issued. The error is that memory is out.
pub fn begin(alloc: Global, plan: &Plan, layout: Layout, records: Nums) -> Result<Parts, AllocError>
    requires suits { Suits (batch_in plan.now).work layout (batch_in plan.now).inputs (batch_in plan.now).limits }
    requires cuts { HasCuts (batch_in plan.now).recovery }
    requires few { (batch_in plan.now).limits.subthreads < 2 ^ 32 }
    requires records { records ≡ (batch_in plan.now).inputs.records }
    ensures kept { IfOk result (Kept (batch_in plan.now)) }
    ensures closed { IfOk result (λ parts. parts.ring.cleared ≡ false) }
    ensures view { IfOk result (λ parts. view_of (batch_in plan.now) parts ≡ begun (batch_in plan.now)) }
{
    let ring = ring_of(alloc, plan, &layout)?;
    let place = first_place(alloc, plan)?;
    let mut places = Vec::new(alloc);
    places.push(place)?;
    let store = store_of(alloc, plan, layout, records)?;
    Ok(Parts {
        ring,
        places,
        rol: Rol::new(alloc),
        store,
        backup: Backup::new(alloc),
        events: Room::new(alloc),
        restarts: Room::new(alloc),
        issued: 0,
        ended: None,
    })
}
