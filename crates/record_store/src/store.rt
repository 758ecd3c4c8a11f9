// The store: the data of a run, what is lent of it and comes home, and what undoes that.

ghost use Rattle.std.specs.Prelude.{◌≡◌, ◌<◌, ◌≤◌, ℕ, [], cond, nat_eq, true, false, not, unwrap_or, length, map, slice_get, slice_set, Some, All, IfOk, OnOk, OnErr};
ghost use Rattle.std.specs.List.{IsDistinct};
ghost use Rattle.std.specs.Ordering.{nat_cmp};
ghost use Rattle.std.specs.FinMap.{find};
ghost use Rattle.task_ast.specs.meaning.State.{RegistersOf, number_at};
ghost use Rattle.task_ast.specs.meaning.Effect.{after};
ghost use Rattle.task_ast.specs.History.{old_of};
ghost use Rattle.task_ast.specs.meaning.Under.{under_lock};
ghost use Rattle.record_store.specs.Stored.{state_of, Fits, FitsChild, SameShape, IsAtHome, IsAway, IsAllHome, CellsAtHome, without_threads, with_thread};
ghost use Rattle.record_store.specs.Given.{joined_value, bundle_of, value_beside, value_over};
ghost use Rattle.record_store.specs.Lent.{marked, lock_in, whole_effect, AreAsLent, MayComeHome, IsSharedOut};
ghost use Rattle.record_store.specs.inner.Homing.{CanLend, HaveSizes};

use crate::copies::{copy_lists, copy_shelves};
use crate::exchange::exchange_threads;
use crate::shelf::{CellShelf, is_home, is_whole, put_in, set_at, take_out};
use crate::stock::{fill_cells, places_of, shelves_of};
use crate::summed::value_at;
use crate::{Bundle, Effect, History, Summed};
use gp_base::{Lines, LockNo, Nums, RecNo, Room, Seq, ThreadNo};
use std::alloc::{AllocError, Global};
use std::marker::Model;
use std::sync::Arc;
use task_ast::Layout;

/// Where the record cells stand: the place of each, and those under each lock cell. It never changes, and the copies of
/// a store share it.
#[derive(Drop)]
struct Standing {
    places: Vec<(LockNo, u32)>,
    layout: Layout,
}

/// The registers of all threads, the cells of all records on a shelf for each lock cell, where the record cells stand,
/// and the list of the records as they began, which is kept as room for the answer. Contracts see registers and cells
/// as lists, the cells of a shelf that is lent at the values with which it was lent; what a run rests on is the state
/// that they stand for.
#[derive(Drop)]
pub struct Store {
    threads: Vec<Summed>,
    shelves: Vec<CellShelf>,
    standing: Arc<Standing>,
    room: Nums,
}

impl Model for Store {
    ghost use Rattle.std.specs.Prelude.{map, length};
    ghost use Rattle.std.specs.Arc.{arc_value};
    ghost use Rattle.record_store.specs.Stored.{Stored};
    ghost use Rattle.record_store.specs.inner.Shelves.{seen, is_away, cells_on, IsKept};

    ghost Value = { Stored };

    ghost view = { λ s. record { threads = s.threads.items; cells = cells_on (map seen s.shelves.items) (arc_value s.standing).places.items; under = (arc_value s.standing).layout.under; away = map is_away s.shelves.items } };

    ghost invariant = { λ s. IsKept (arc_value s.standing).layout.under (arc_value s.standing).places.items (map seen s.shelves.items) (length s.room) };
}

impl Store {
    /// These record cells, all at home, and no thread; those under each lock cell have a sum, where that is asked for.
    /// The error is that memory is out, or that there are more cells than have numbers.
    pub fn new(
        alloc: Global,
        records: Nums,
        layout: Layout,
        is_summed: bool,
    ) -> Result<Store, AllocError>
        requires { IsSharedOut (length records) layout.under }
        ensures { IfOk result (λ store. store ≡ without_threads records layout.under) }
    {
        let places = places_of(alloc, records.len(), layout.under.as_slice())?;
        let shelves = shelves_of(
            alloc,
            records.as_slice(),
            layout.under.as_slice(),
            is_summed,
        )?;
        let standing = Arc::new(alloc, Standing { places, layout })?;
        Ok(Store {
            threads: Vec::new(alloc),
            shelves,
            standing,
            room: records,
        })
    }

    /// A copy of the store, whose cells are all at home; where they stand is shared with it. A copy has room for the
    /// answer too, since it may take the store's place. The error is that memory is out.
    pub fn copy(&self, alloc: Global) -> Result<Store, AllocError>
        requires { IsAllHome self.now }
        ensures { IfOk result (λ copy. copy ≡ self.now) }
    {
        let threads = copy_lists(alloc, self.threads.as_slice())?;
        let shelves = copy_shelves(alloc, self.shelves.as_slice())?;
        let standing = Arc::try_clone(&self.standing)?;
        let room = self.room.copied(alloc)?;
        Ok(Store {
            threads,
            shelves,
            standing,
            room,
        })
    }

    /// A number among the registers of a thread, or 0.
    pub fn register(&self, thread: ThreadNo, k: usize) -> i64
        ensures { result ≡ number_at (state_of self.now (RegistersOf thread)) k }
    {
        match self.threads.get(thread.0 as usize) {
            Some(regs) => value_at(regs.as_slice(), k),
            None => 0,
        }
    }

    /// How many threads there are.
    pub fn len(&self) -> usize
        ensures { result ≡ length self.now.threads }
    {
        self.threads.len()
    }

    /// The cells of all records, in declared order, which are all at home; all else is given up. Takes no memory.
    pub fn into_records(self) -> Nums
        requires { IsAllHome self }
        ensures { result ≡ self.cells }
    {
        let Store {
            shelves,
            standing,
            room,
            ..
        } = self;
        fill_cells(room, &shelves, &standing.places)
    }

    /// Adds the next thread, with so many registers that are 0. The error is that memory is out; the store is then as
    /// it was.
    pub fn reserve_thread(&mut self, alloc: Global, regs: u32) -> Result<(), AllocError>
        ensures ok { OnOk result (self.new ≡ with_thread regs self.old) }
        ensures err { OnErr result (self.new ≡ self.old) }
    {
        let zeros = vec![in alloc; 0i64; regs as usize]?;
        self.threads.push(Summed::plain(Seq::from_vec(zeros)))?;
        Ok(())
    }

    /// The registers of a thread, with the sum that they were left with, and `$ret` of the thread that is joined, if any,
    /// or 0. The error is that memory is out.
    pub fn regs_of(
        &self,
        alloc: Global,
        thread: ThreadNo,
        joined: Option<ThreadNo>,
    ) -> Result<(Summed, i64), AllocError>
        ensures regs { IfOk result (λ given. given.0 ≡ state_of self.now (RegistersOf thread)) }
        ensures joined { IfOk result (λ given. given.1 ≡ joined_value (state_of self.now) joined) }
    {
        let regs = self.registers_copied(alloc, thread)?;
        Ok((regs, self.returned(joined)))
    }

    // The registers of a thread, with the sum that they were left with; one that isn't there has none.
    fn registers_copied(&self, alloc: Global, thread: ThreadNo) -> Result<Summed, AllocError>
        ensures { IfOk result (λ regs. regs ≡ state_of self.now (RegistersOf thread)) }
    {
        match self.threads.get(thread.0 as usize) {
            Some(regs) => regs.copied(alloc),
            None => Ok(Summed::plain(Seq::new(alloc))),
        }
    }

    // The registers of a thread; one that isn't there has none.
    fn registers(&self, thread: ThreadNo) -> &[i64]
        ensures { result.now ≡ state_of self.now (RegistersOf thread) }
    {
        match self.threads.get(thread.0 as usize) {
            Some(regs) => regs.as_slice(),
            None => &[],
        }
    }

    // `$ret` of the thread that is joined, or 0.
    fn returned(&self, joined: Option<ThreadNo>) -> i64
        ensures { result ≡ joined_value (state_of self.now) joined }
    {
        match joined {
            Some(thread) => value_at(self.registers(thread), 0),
            None => 0,
        }
    }

    /// Whether the cells that are at home are those that writes left, as far as their sums tell. Takes no memory.
    pub fn is_whole(&self) -> bool {
        self.shelves.iter().all(|shelf| is_whole(shelf))
    }

    /// Whether the cells under a lock cell are at home. Takes no memory.
    pub fn is_home(&self, lock: LockNo) -> bool
        requires { lock < length self.now.away }
        ensures { slice_get self.now.away lock ≡ Some (not result) }
    {
        is_home(&self.shelves[lock.0 as usize])
    }

    /// Moves the cells under lock cells out, which differ and are at home; they are then away. The store stays as it was
    /// otherwise. Takes no memory.
    pub fn lend(&mut self, held: &Seq<LockNo>, into: &mut Room<Bundle>)
        requires home { All (IsAtHome self.old) held.now }
        requires distinct { IsDistinct nat_eq held.now }
        requires empty { into.old.items ≡ [] }
        requires room { length held.now ≤ into.old.spare }
        ensures bundles { into.new.items ≡ map (bundle_of self.old.under (state_of self.old)) held.now }
        ensures store { self.new ≡ record self.old { away = marked held.now true self.old.away } }
    {
        for lock in held.as_slice() {
            let bundle = self.lend_one(*lock);
            into.push(bundle);
        }
    }

    // Moves the cells under a lock cell out.
    fn lend_one(&mut self, lock: LockNo) -> Bundle
        requires home { IsAtHome self.old lock }
        ensures bundle { result ≡ bundle_of self.old.under (state_of self.old) lock }
        ensures store { self.new ≡ record self.old { away = slice_set self.old.away lock true } }
    {
        let cells = take_out(&mut self.shelves[lock.0 as usize]);
        Bundle { lock, cells }
    }

    /// Takes home what was lent, with new values, and leaves the registers that an effect leaves. Gives the values that
    /// these overwrote, which fit this store from now on, and the lines that were printed. Takes no memory.
    pub fn accept_home(
        &mut self,
        bundles: Seq<Bundle>,
        old: Seq<(RecNo, i64)>,
        effect: Effect,
    ) -> (History, Lines)
        requires comes { MayComeHome self.old bundles old }
        requires thread { effect.thread < length self.old.threads }
        requires child { FitsChild (length self.old.threads) effect.thread effect.child }
        ensures state { state_of self.new ≡ after (whole_effect self.old.under bundles old effect) (state_of self.old) }
        ensures history { result.0 ≡ old_of (whole_effect self.old.under bundles old effect) (state_of self.old) }
        ensures lines { result.1 ≡ effect.prints }
        ensures back { Fits self.new result.0 }
        ensures shape { SameShape self.old self.new }
        ensures away { self.new.away ≡ marked (map lock_in bundles) false self.old.away }
    {
        let Effect {
            thread,
            regs,
            child,
            prints,
        } = effect;
        let mut regs = regs;
        let mut child = child;
        exchange_threads(&mut self.threads, thread, &mut regs, &mut child);
        self.bring_home(bundles);
        let history = History {
            thread,
            writes: old,
            regs,
            child,
        };
        (history, prints)
    }

    /// Takes home what was lent and is as it was. The store stays as it was otherwise. Takes no memory.
    pub fn send_back(&mut self, bundles: Seq<Bundle>)
        requires away { All (λ b. IsAway self.old (lock_in b)) bundles }
        requires as_lent { AreAsLent self.old bundles }
        ensures { self.new ≡ record self.old { away = marked (map lock_in bundles) false self.old.away } }
    {
        self.bring_home(bundles);
    }

    // Puts bundles onto the shelves of their locks.
    fn bring_home(&mut self, bundles: Seq<Bundle>)
        requires exist { All (λ b. lock_in b < length self.old.away) bundles }
        requires sizes { HaveSizes self.old.under bundles }
        ensures cells { (c : ℕ) → number_at self.new.cells c ≡ value_over self.old.under bundles c (number_at self.old.cells c) }
        ensures count { length self.new.cells ≡ length self.old.cells }
        ensures rest { self.new ≡ record self.old { cells = self.new.cells; away = marked (map lock_in bundles) false self.old.away } }
    {
        let mut bundles = bundles;
        'coming: while let Some(bundle) = bundles.pop() {
            self.bring_one(bundle);
        }
    }

    // Puts a bundle onto the shelf of its lock.
    fn bring_one(&mut self, bundle: Bundle)
        requires exists { bundle.lock < length self.old.away }
        requires size { length bundle.cells ≡ length (under_lock self.old.under bundle.lock) }
        ensures cells { (c : ℕ) → number_at self.new.cells c ≡ value_beside (under_lock self.old.under bundle.lock) bundle.cells c (number_at self.old.cells c) }
        ensures count { length self.new.cells ≡ length self.old.cells }
        ensures rest { self.new ≡ record self.old { cells = self.new.cells; away = slice_set self.old.away bundle.lock false } }
    {
        let Bundle { lock, cells } = bundle;
        put_in(&mut self.shelves[lock.0 as usize], cells);
    }

    /// Gives the old values back; no lock over a cell among them is away. Takes no memory.
    pub fn undo(&mut self, history: History)
        requires fits { Fits self.old history }
        requires home { CellsAtHome self.old history }
        ensures state { state_of self.new ≡ after history (state_of self.old) }
        ensures shape { SameShape self.old self.new }
        ensures away { self.new.away ≡ self.old.away }
    {
        let History {
            thread,
            writes,
            regs,
            child,
        } = history;
        let mut regs = regs;
        let mut child = child;
        exchange_threads(&mut self.threads, thread, &mut regs, &mut child);
        self.restore(writes);
    }

    // Puts old values into cells that are at home.
    fn restore(&mut self, writes: Seq<(RecNo, i64)>)
        requires in_range { All (λ w. w.0 < length self.old.cells) writes }
        requires home { All (λ w. (l k : ℕ) → slice_get (under_lock self.old.under l) k ≡ Some w.0 → ¬ IsAway self.old l) writes }
        ensures cells { (c : ℕ) → number_at self.new.cells c ≡ unwrap_or (find nat_cmp c writes) (number_at self.old.cells c) }
        ensures count { length self.new.cells ≡ length self.old.cells }
        ensures rest { self.new ≡ record self.old { cells = self.new.cells } }
    {
        let mut writes = writes;
        'restoring: while let Some(write) = writes.pop() {
            self.restore_one(write.0, write.1);
        }
    }

    // Puts an old value into a cell that is at home.
    fn restore_one(&mut self, cell: RecNo, value: i64)
        requires in_range { cell < length self.old.cells }
        requires home { (l k : ℕ) → slice_get (under_lock self.old.under l) k ≡ Some cell → ¬ IsAway self.old l }
        ensures cells { (c : ℕ) → number_at self.new.cells c ≡ cond (nat_eq c cell) value (number_at self.old.cells c) }
        ensures count { length self.new.cells ≡ length self.old.cells }
        ensures rest { self.new ≡ record self.old { cells = self.new.cells } }
    {
        let (lock, place) = self.standing.places[cell.0 as usize];
        set_at(&mut self.shelves[lock.0 as usize], place as usize, value);
    }
}
