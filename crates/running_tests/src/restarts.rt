// What a restart redoes of the worked examples, and what waits for locks.
ghost use Rattle.std.specs.Prelude.{◌≡◌, ◌+◌, ◌<◌, [], length, All, None, IfOk, OnOk};
ghost use Rattle.reorder_list.specs.Entries.{AllKnown, StandFrom, IsFresh};

use crate::adders::{REGS_0, REGS_1, REGS_2, foot};
use crate::outcome::passes;
use gp_base::{At, Loc, LockNo, Pos, RecNo, Room, Seq, ThreadNo};
use record_store::Store;
use reorder_list::{Entry, Rol, State};
use restart::restart;
use std::alloc::{AllocError, Global};
use std::test::Fail;
use task_ast::{Layout, Next, SyncOp};

const BANK: Loc = Loc::Lock(LockNo(0));

const FIRST: Loc = Loc::Rec(RecNo(0));

const SECOND: Loc = Loc::Rec(RecNo(1));

// The first entry of a position, with the locations that it may write by its locks.
fn entry(alloc: Global, p: u32, writes: &[Loc]) -> Result<Entry, AllocError>
    ensures { IfOk result (λ e. (e.pos ≡ p) × (e.attempt ≡ 0) × (e.hist ≡ None) × IsFresh e) }
{
    let locks = foot(alloc, &[], writes)?;
    Ok(Entry {
        pos: Pos(p),
        thread: ThreadNo(0),
        begins: Next {
            sync: SyncOp::Start,
            line: 0,
        },
        at: At { task: 0, pc: 0 },
        ctl: Seq::new(alloc),
        held: Seq::new(alloc),
        child: None,
        attempt: 0,
        begun: 0,
        state: State::Waiting,
        locks,
        foot: None,
        hist: None,
        prints: Seq::new(alloc),
    })
}

// The next position.
fn push(alloc: Global, rol: &mut Rol, p: u32, writes: &[Loc]) -> Result<(), AllocError>
    requires row { StandFrom 0 rol.old.entries }
    requires next { length rol.old.entries ≡ p }
    requires fresh { All (λ e. (e.attempt ≡ 0) × (e.hist ≡ None)) rol.old.entries }
    ensures row { OnOk result (StandFrom 0 rol.new.entries) }
    ensures next { OnOk result (length rol.new.entries ≡ p + 1) }
    ensures fresh { OnOk result (All (λ e. (e.attempt ≡ 0) × (e.hist ≡ None)) rol.new.entries) }
{
    rol.reserve()?;
    let next = entry(alloc, p, writes)?;
    rol.push_back(next);
    Ok(())
}

// Two threads that hold one lock in turn, up to the second one's lock: nothing has run.
fn two_threads(alloc: Global) -> Result<Rol, AllocError>
    ensures row { IfOk result (λ rol. StandFrom 0 rol.entries) }
    ensures eight { IfOk result (λ rol. length rol.entries ≡ 8) }
    ensures fresh { IfOk result (λ rol. All (λ e. (e.attempt ≡ 0) × (e.hist ≡ None)) rol.entries) }
{
    let locks: [&[Loc]; 8] = [
        &[REGS_0],
        &[REGS_0, REGS_1],
        &[REGS_1],
        &[REGS_0, REGS_2],
        &[REGS_1, BANK],
        &[REGS_2],
        &[REGS_1],
        &[REGS_2, BANK],
    ];
    let mut rol = Rol::new(alloc);
    for p in 0..8 {
        push(alloc, &mut rol, p, locks[p as usize])?;
    }
    Ok(rol)
}

// It is known what a position writes.
fn learn(alloc: Global, rol: &mut Rol, p: u32, writes: &[Loc]) -> Result<(), AllocError>
    requires below { p < length rol.old.entries }
    requires row { StandFrom 0 rol.old.entries }
    requires fresh { All (λ e. (e.attempt ≡ 0) × (e.hist ≡ None)) rol.old.entries }
    ensures row { OnOk result (StandFrom 0 rol.new.entries) }
    ensures len { OnOk result (length rol.new.entries ≡ length rol.old.entries) }
    ensures fresh { OnOk result (All (λ e. (e.attempt ≡ 0) × (e.hist ≡ None)) rol.new.entries) }
{
    let foot = foot(alloc, &[], writes)?;
    rol.learn_foot(Pos(p), foot);
    Ok(())
}

// The same where it is known that the first thread writes the first record, and the second one this one.
fn two_writers(alloc: Global, record: Loc) -> Result<Rol, AllocError>
    ensures row { IfOk result (λ rol. StandFrom 0 rol.entries) }
    ensures eight { IfOk result (λ rol. length rol.entries ≡ 8) }
    ensures fresh { IfOk result (λ rol. All (λ e. (e.attempt ≡ 0) × (e.hist ≡ None)) rol.entries) }
{
    let last = [REGS_2, record];
    let cells: [&[Loc]; 8] = [
        &[REGS_0],
        &[REGS_0, REGS_1],
        &[REGS_1],
        &[REGS_0, REGS_2],
        &[REGS_1, FIRST],
        &[REGS_2],
        &[REGS_1],
        &last,
    ];
    let mut rol = two_threads(alloc)?;
    for p in 0..8 {
        learn(alloc, &mut rol, p, cells[p as usize])?;
    }
    Ok(rol)
}

// Redoes the dependents of one of the eight, of all of which it is known what they write.
fn redo(alloc: Global, rol: &mut Rol, struck: u32) -> Result<Seq<Pos>, AllocError>
    requires row { StandFrom 0 rol.old.entries }
    requires eight { length rol.old.entries ≡ 8 }
    requires fresh { All (λ e. (e.attempt ≡ 0) × (e.hist ≡ None)) rol.old.entries }
    requires known { AllKnown rol.old.entries }
    requires struck { struck < 8 }
{
    let layout = Layout {
        under: Seq::new(alloc),
    };
    let mut redo = Room::new(alloc);
    redo.reserve(8)?;
    let mut store = Store::new(alloc, Seq::new(alloc), layout, false)?;
    restart(alloc, rol, &mut store, Pos(struck), Pos(8), &mut redo);
    drop(store);
    Ok(redo.into_seq())
}

// The positions that are redone with one of the eight; none where it is not known of all what they write.
fn redone_with(alloc: Global, record: Loc, struck: u32) -> Result<Seq<Pos>, AllocError>
    requires { struck < 8 }
{
    let mut rol = two_writers(alloc, record)?;
    if !rol.all_known() {
        return Ok(Seq::new(alloc));
    }
    let redone = redo(alloc, &mut rol, struck);
    drop(rol);
    redone
}

// Whether these positions are redone with positions 4 and 2, and seven with position 1.
fn redoes(alloc: Global, record: Loc, late: &[Pos], early: &[Pos]) -> Result<bool, AllocError> {
    let with_4 = redone_with(alloc, record, 4)?;
    let with_2 = redone_with(alloc, record, 2)?;
    let with_1 = redone_with(alloc, record, 1)?;
    Ok(with_4.as_slice() == late && with_2.as_slice() == early && with_1.len() == 7)
}

#[test]
fn redoes_dependents(rt: HostRuntime) -> Result<(), Fail> {
    let late = [Pos(4), Pos(6), Pos(7)];
    let early = [Pos(2), Pos(4), Pos(6), Pos(7)];
    passes(redoes(rt.alloc(), FIRST, &late, &early))
}

// Under one lock, a position that names another record is not redone.
#[test]
fn keeps_other_records(rt: HostRuntime) -> Result<(), Fail> {
    let late = [Pos(4), Pos(6)];
    let early = [Pos(2), Pos(4), Pos(6)];
    passes(redoes(rt.alloc(), SECOND, &late, &early))
}

// Whether the first of two waits for nothing, and the second one for it.
fn waits(rol: &Rol) -> bool {
    rol.runnable(Pos(0)) && !rol.runnable(Pos(1))
}

// Whether the second of two under one lock waits for it, whether or not it is known which records are named.
fn waits_for_lock(alloc: Global, rol: &mut Rol) -> Result<bool, AllocError>
    requires { rol.old.entries ≡ [] }
{
    push(alloc, rol, 0, &[REGS_1, BANK])?;
    push(alloc, rol, 1, &[REGS_2, BANK])?;
    let waits_at_first = waits(rol) && !rol.all_known();
    learn(alloc, rol, 0, &[REGS_1, FIRST])?;
    let is_one_unknown = !rol.all_known();
    learn(alloc, rol, 1, &[REGS_2, SECOND])?;
    Ok(waits_at_first && is_one_unknown && rol.all_known() && waits(rol))
}

// But it waits for the lock.
#[test]
fn waits_for_locks(rt: HostRuntime) -> Result<(), Fail> {
    let alloc = rt.alloc();
    let mut rol = Rol::new(alloc);
    let is_told = waits_for_lock(alloc, &mut rol);
    drop(rol);
    passes(is_told)
}
