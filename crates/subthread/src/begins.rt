// The synchronisation with which a run begins.
ghost use Rattle.std.specs.Prelude.{◌≡◌, ◌<◌, ◌^◌, ℕ, map, option_map, slice_get, unwrap_or, [], OnOk, Some};
ghost use Rattle.task_ast.specs.meaning.Control.{all_of};
ghost use Rattle.task_code.specs.Instructions.{At as PlainAt};
ghost use Rattle.task_code.specs.Reading.{begin_actions, behind, code_begins, code_first, fork_arguments, gift_action, passed};
ghost use Rattle.task_code.specs.View.{plain_calc, plain_does, plain_forking, plain_gifts, plain_instrs};
ghost use Rattle.subthread.specs.inner.Running.{env_in, place_in, doing_of, after_all, tasks_in, IsTask, StaysInside, Performs, AllPerform, Begun};

use crate::ground::{Cursor, Doing, Ground};
use crate::numbers::{set_number, zeros};
use crate::values::data_value;
use crate::walk::fork_values;
use gp_base::ThreadNo;
use std::alloc::{AllocError, Global};
use task_ast::SyncOp;
use task_code::{Calc, Does, Forking};

// A data argument of a fork goes into the register of its parameter.
fn give_one(gift: &(usize, Calc), ground: &Ground, ctl: &[i64], doing: &mut Doing)
    ensures performs { Performs ground.now (gift_action (gift.now.0, plain_calc gift.now.1) (env_in ground.now ctl.now)) (doing_of doing.old) (doing_of doing.new) }
    ensures cells { doing.new.cells ≡ doing.old.cells }
{
    if let Some(v) = data_value(&gift.1, ground, ctl, doing.regs.as_slice()) {
        set_number(&mut doing.child, gift.0, v);
    }
}

// So do all.
fn give_all(gifts: &[(usize, Calc)], ground: &Ground, ctl: &[i64], doing: &mut Doing)
    ensures performs { AllPerform ground.now (all_of (map (λ g. gift_action g (env_in ground.now ctl.now)) (plain_gifts gifts.now))) (doing_of doing.old) (doing_of doing.new) }
    ensures cells { doing.new.cells ≡ doing.old.cells }
{
    for gift in gifts {
        give_one(gift, ground, ctl, doing);
    }
}

// The registers of a fork's child: those of its data arguments, and 0.
fn make_child(
    alloc: Global,
    forking: &Forking,
    ground: &Ground,
    ctl: &[i64],
    doing: &mut Doing,
) -> Result<(), AllocError>
    ensures made { OnOk result (doing_of doing.new ≡ after_all ground.now (unwrap_or (option_map (λ a. a.1) (fork_arguments (plain_forking forking.now) (env_in ground.now ctl.now))) []) (doing_of doing.old)) }
    ensures cells { doing.new.cells ≡ doing.old.cells }
{
    let Some(_values) = fork_values(alloc, forking, ground, ctl)? else {
        return Ok(());
    };
    doing.child = zeros(alloc, forking.registers)?;
    give_all(forking.gifts.as_slice(), ground, ctl, doing);
    Ok(())
}

// How many instructions the jump at the end of a choice's first side passes.
fn jump_of(does: &Does) -> usize
    ensures { (line : ℕ) → result ≡ passed (Some (PlainAt line (plain_does does.now))) }
{
    match does {
        Does::GoOn(n) => *n,
        Does::Assign(_, _) => 0,
        Does::Unless(_, _) => 0,
        Does::Again(_, _) => 0,
        Does::Lock(_, _) => 0,
        Does::Unlock(_, _) => 0,
        Does::Fork(_) => 0,
        Does::Join(_, _) => 0,
        Does::Barrier(_) => 0,
        Does::Settle(_, _) => 0,
        Does::Do(_) => 0,
    }
}

// The same of the instruction with this number.
fn jump_at(ground: &Ground, pc: usize) -> usize
    requires { IsTask ground.now }
    ensures value { result ≡ passed (slice_get (plain_instrs ground.now.instrs.now) pc) }
    ensures short { result < 2 ^ 32 }
{
    if pc < ground.instrs.len() {
        jump_of(&ground.instrs[pc].does)
    } else {
        0
    }
}

// What the synchronisation at an instruction does: a fork makes the registers of its child, and the value that a joined
// thread returns goes into the register that takes it.
fn begin_data(
    alloc: Global,
    does: &Does,
    ground: &Ground,
    cursor: &Cursor,
    doing: &mut Doing,
) -> Result<(), AllocError>
    ensures made { OnOk result ((line : ℕ) → doing_of doing.new ≡ after_all ground.now (begin_actions ground.now.feeds.now (Some (PlainAt line (plain_does does.now))) (place_in ground.now cursor.now)) (doing_of doing.old)) }
    ensures cells { doing.new.cells ≡ doing.old.cells }
{
    match does {
        Does::Fork(forking) => make_child(alloc, forking, ground, cursor.ctl.as_slice(), doing),
        Does::Join(_, into) => {
            if let Some(k) = into {
                set_number(&mut doing.regs, *k, ground.joined);
                Ok(())
            } else {
                Ok(())
            }
        }
        Does::Assign(_, _) => Ok(()),
        Does::GoOn(_) => Ok(()),
        Does::Unless(_, _) => Ok(()),
        Does::Again(_, _) => Ok(()),
        Does::Lock(_, _) => Ok(()),
        Does::Unlock(_, _) => Ok(()),
        Does::Barrier(_) => Ok(()),
        Does::Settle(_, _) => Ok(()),
        Does::Do(_) => Ok(()),
    }
}

// Stands after the synchronisation at an instruction, which may be a choice as a whole. The number of a fork's child
// goes into the variable that takes it.
fn go_behind(does: &Does, ground: &Ground, child: Option<ThreadNo>, cursor: &mut Cursor)
    requires task { IsTask ground.now }
    requires inside { StaysInside (plain_does does.now) cursor.old.pc }
    ensures { (line : ℕ) → place_in ground.now cursor.new ≡ behind (tasks_in ground.now) (Some (PlainAt line (plain_does does.now))) child (place_in ground.now cursor.old) }
{
    match does {
        Does::Fork(forking) => {
            if let (Some(c), Some(k)) = (child, forking.into) {
                set_number(&mut cursor.ctl, k, i64::from(c.0));
                cursor.pc += 1;
            } else {
                cursor.pc += 1;
            }
        }
        Does::Unless(_, n) => {
            cursor.pc = cursor.pc + 1 + *n + jump_at(ground, cursor.pc + *n);
        }
        Does::Assign(_, _) => cursor.pc += 1,
        Does::GoOn(_) => cursor.pc += 1,
        Does::Again(_, _) => cursor.pc += 1,
        Does::Lock(_, _) => cursor.pc += 1,
        Does::Unlock(_, _) => cursor.pc += 1,
        Does::Join(_, _) => cursor.pc += 1,
        Does::Barrier(_) => cursor.pc += 1,
        Does::Settle(_, _) => cursor.pc += 1,
        Does::Do(_) => cursor.pc += 1,
    }
}

// The synchronisation at an instruction.
fn begin_at(
    alloc: Global,
    does: &Does,
    ground: &Ground,
    child: Option<ThreadNo>,
    cursor: &mut Cursor,
    doing: &mut Doing,
) -> Result<(), AllocError>
    requires task { IsTask ground.now }
    requires inside { StaysInside (plain_does does.now) cursor.old.pc }
    ensures begun { OnOk result ((line : ℕ) → Begun ground.now (begin_actions ground.now.feeds.now (Some (PlainAt line (plain_does does.now))) (place_in ground.now cursor.old)) (behind (tasks_in ground.now) (Some (PlainAt line (plain_does does.now))) child (place_in ground.now cursor.old)) (place_in ground.now cursor.new) (doing_of doing.old) (doing_of doing.new)) }
    ensures cells { doing.new.cells ≡ doing.old.cells }
{
    begin_data(alloc, does, ground, cursor, doing)?;
    go_behind(does, ground, child, cursor);
    Ok(())
}

/// Performs the synchronisation with which a run begins, and stands after it: the data arguments of a fork go into the
/// registers of its child, whose number goes into the variable that takes it; the value that a joined thread returns
/// goes into the register that takes it.
pub fn begin(
    alloc: Global,
    begins: &SyncOp,
    ground: &Ground,
    child: Option<ThreadNo>,
    cursor: &mut Cursor,
    doing: &mut Doing,
) -> Result<(), AllocError>
    requires { IsTask ground.now }
    ensures begun { OnOk result (Begun ground.now (code_first (tasks_in ground.now) ground.now.feeds.now begins.now (place_in ground.now cursor.old)) (code_begins (tasks_in ground.now) begins.now child (place_in ground.now cursor.old)) (place_in ground.now cursor.new) (doing_of doing.old) (doing_of doing.new)) }
    ensures cells { doing.new.cells ≡ doing.old.cells }
{
    if begins.is_start() {
        return Ok(());
    }
    if cursor.pc < ground.instrs.len() {
        begin_at(
            alloc,
            &ground.instrs[cursor.pc].does,
            ground,
            child,
            cursor,
            doing,
        )
    } else {
        Ok(())
    }
}

/// Stands after the synchronisation with which a run begins, as `begin` does, and does nothing else.
pub fn begin_control(begins: &SyncOp, ground: &Ground, child: Option<ThreadNo>, cursor: &mut Cursor)
    requires { IsTask ground.now }
    ensures { place_in ground.now cursor.new ≡ code_begins (tasks_in ground.now) begins.now child (place_in ground.now cursor.old) }
{
    if begins.is_start() {
        return;
    }
    if cursor.pc < ground.instrs.len() {
        go_behind(&ground.instrs[cursor.pc].does, ground, child, cursor)
    }
}
