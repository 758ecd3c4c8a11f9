// What a store lends and takes home, and what undoing some of it leaves.
ghost use Rattle.std.specs.Prelude.{◌≡◌, ◌<◌, ℕ, pos, [], ◌∷◌, cond, nat_eq, IfOk, OnOk};
ghost use Rattle.task_ast.specs.meaning.State.{number_at};
ghost use Rattle.record_store.specs.Stored.{Fits, FitsChild};
ghost use Rattle.running_tests.specs.Pairs.{IsPair, each_alone};

use crate::outcome::passes;
use gp_base::{LockNo, RecNo, Room, Seq, ThreadNo};
use record_store::{Bundle, Effect, History, Store, Summed};
use std::alloc::{AllocError, Global};
use std::test::Fail;
use task_ast::Layout;

// Two cells, each under a lock of its own.
fn alone(alloc: Global) -> Result<Layout, AllocError>
    ensures { IfOk result (λ layout. layout.under ≡ each_alone) }
{
    let mut under = Seq::new(alloc);
    under.push(Seq::from_slice(alloc, &[RecNo(0)])?)?;
    under.push(Seq::from_slice(alloc, &[RecNo(1)])?)?;
    Ok(Layout { under })
}

// Cells 5 and 7, each under a lock of its own, and two threads.
fn two_cells(alloc: Global) -> Result<Store, AllocError>
    ensures pair { IfOk result (λ store. IsPair store) }
    ensures cells { IfOk result (λ store. store.cells ≡ pos 5 ∷ pos 7 ∷ []) }
{
    let mut store = Store::new(alloc, Seq::from_slice(alloc, &[5, 7])?, alone(alloc)?, true)?;
    store.reserve_thread(alloc, 1)?;
    store.reserve_thread(alloc, 0)?;
    Ok(store)
}

// Thread 0 forks thread 1, leaves its registers as 3 and those of the child as 4 and 2, and prints 1.
fn fork(alloc: Global) -> Result<Effect, AllocError>
    ensures thread { IfOk result (λ effect. effect.thread ≡ 0) }
    ensures child { IfOk result (λ effect. FitsChild 2 0 effect.child) }
{
    let mut prints = Seq::new(alloc);
    prints.push(Seq::from_slice(alloc, &[1])?)?;
    let regs = Summed::plain(Seq::from_slice(alloc, &[3])?);
    let given = Summed::plain(Seq::from_slice(alloc, &[4, 2])?);
    Ok(Effect {
        thread: ThreadNo(0),
        regs,
        child: Some((ThreadNo(1), given)),
        prints,
    })
}

// The bundle of the lock over a cell, with this value.
fn bundle(alloc: Global, cell: u32, value: i64) -> Result<Seq<Bundle>, AllocError>
    ensures { IfOk result (λ bundles. bundles ≡ record { lock = cell; cells = value ∷ [] } ∷ []) }
{
    let cells = Summed::plain(Seq::from_slice(alloc, &[value])?);
    let lock = LockNo(cell);
    let mut bundles = Seq::new(alloc);
    bundles.push(Bundle { lock, cells })?;
    Ok(bundles)
}

// A cell is lent, and comes home with another value than before.
fn write(
    alloc: Global,
    store: &mut Store,
    cell: u32,
    before: i64,
    value: i64,
) -> Result<History, AllocError>
    requires pair { IsPair store.old }
    requires exists { cell < 2 }
    requires before { number_at store.old.cells cell ≡ before }
    ensures pair { OnOk result (IsPair store.new) }
    ensures cells { OnOk result ((c : ℕ) → number_at store.new.cells c ≡ cond (nat_eq c cell) value (number_at store.old.cells c)) }
    ensures back { IfOk result (Fits store.new) }
{
    let bundles = bundle(alloc, cell, value)?;
    let old = Seq::from_slice(alloc, &[(RecNo(cell), before)])?;
    let held = Seq::from_slice(alloc, &[LockNo(cell)])?;
    let mut lent = Room::new(alloc);
    lent.reserve(1)?;
    let effect = Effect {
        thread: ThreadNo(0),
        regs: Summed::plain(Seq::new(alloc)),
        child: None,
        prints: Seq::new(alloc),
    };
    store.lend(&held, &mut lent);
    let (history, _) = store.accept_home(bundles, old, effect);
    Ok(history)
}

// Whether thread 0 has the register that the fork left it, and thread 1, which it joins, returns 4.
fn gives_registers(alloc: Global, store: &mut Store) -> Result<bool, AllocError>
    requires { IsPair store.old }
{
    let fork = fork(alloc)?;
    let (history, prints) = store.accept_home(Seq::new(alloc), Seq::new(alloc), fork);
    drop(history);
    let (regs, joined) = store.regs_of(alloc, ThreadNo(0), Some(ThreadNo(1)))?;
    Ok(store.len() == 2 && prints.len() == 1 && regs.as_slice() == [3].as_slice() && joined == 4)
}

// Whether this is the bundle of the second lock alone.
fn is_second(bundles: &[Bundle]) -> bool {
    match bundles {
        [bundle] => bundle.lock == LockNo(1) && bundle.cells.as_slice() == [7].as_slice(),
        _ => false,
    }
}

// Whether the second lock is away while its cell is lent, and at home again after that.
fn lends_cells(alloc: Global, store: &mut Store) -> Result<bool, AllocError>
    requires { IsPair store.old }
{
    let held = Seq::from_slice(alloc, &[LockNo(1)])?;
    let mut lent = Room::new(alloc);
    lent.reserve(1)?;
    store.lend(&held, &mut lent);
    let is_lent = store.is_home(LockNo(0)) && !store.is_home(LockNo(1));
    let is_second = is_second(lent.as_slice());
    store.send_back(lent.into_seq());
    Ok(is_lent && is_second && store.is_home(LockNo(1)))
}

#[test]
fn lends_cells_and_gives_registers(rt: HostRuntime) -> Result<(), Fail> {
    let alloc = rt.alloc();
    let mut store = two_cells(alloc)?;
    let lends = lends_cells(alloc, &mut store);
    drop(store);
    let mut store = two_cells(alloc)?;
    let gives = gives_registers(alloc, &mut store);
    drop(store);
    passes(lends)?;
    passes(gives)
}

// Whether the second cell alone keeps its new value.
fn undoes(alloc: Global) -> Result<bool, AllocError> {
    let mut store = two_cells(alloc)?;
    let first = write(alloc, &mut store, 0, 5, 6)?;
    drop(write(alloc, &mut store, 1, 7, 9)?);
    let third = write(alloc, &mut store, 0, 6, 8)?;
    store.undo(third);
    store.undo(first);
    Ok(store.into_records().as_slice() == [5, 9].as_slice())
}

#[test]
fn undoes_what_came_home(rt: HostRuntime) -> Result<(), Fail> {
    passes(undoes(rt.alloc()))
}
