// A program that is accepted, and its layout.
ghost use Rattle.std.specs.Prelude.{IfOk, IsTrue};
ghost use Rattle.task_ast.specs.Shaped.{is_shaped};
ghost use Rattle.task_ast.specs.View.{plain_program};

use gp_base::{Name, RecNo, Seq};
use lock_checker::{Checked, check};
use std::alloc::{AllocError, Global};
use std::test::Fail;
use task_ast::{Head, Layout, Program, TaskText};

fn name(alloc: Global, bytes: &[u8]) -> Result<Name, AllocError> {
    Seq::from_slice(alloc, bytes)
}

fn small(alloc: Global) -> Result<Program, AllocError>
    ensures { IfOk result (λ p. IsTrue (is_shaped (plain_program p))) }
{
    let door = name(alloc, b"door")?;
    let bank = name(alloc, b"bank")?;
    let acct = name(alloc, b"acct")?;
    let by = name(alloc, b"bank")?;
    let main = name(alloc, b"main")?;
    let mut heads = Seq::new(alloc);
    heads.push(Head::LockHead {
        name: door,
        size: 3,
        line: 1,
    })?;
    heads.push(Head::LockHead {
        name: bank,
        size: 2,
        line: 2,
    })?;
    heads.push(Head::RecHead {
        name: acct,
        size: 2,
        by,
        from: None,
        line: 3,
    })?;
    let mut tasks = Seq::new(alloc);
    tasks.push(TaskText {
        name: main,
        params: Seq::new(alloc),
        vars: Seq::new(alloc),
        body: Seq::new(alloc),
        line: 4,
    })?;
    Ok(Program { heads, tasks })
}

// Whether the program has three heads, and the cells of the lock and of the record begin where they are to.
fn has_bases(checked: &Checked, bank: &Name, acct: &Name) -> bool {
    let found = (checked.lock_base(bank), checked.rec_base(acct));
    let missing = checked.lock_base(acct).is_none() && checked.rec_base(bank).is_none();
    checked.program().heads.len() == 3 && found == (Some(3), Some(0)) && missing
}

#[test]
fn accepts(rt: HostRuntime) -> Result<(), Fail> {
    let alloc = rt.alloc();
    let bank = name(alloc, b"bank")?;
    let acct = name(alloc, b"acct")?;
    let checked = check(alloc, small(alloc)?)?;
    let is_told = has_bases(&checked, &bank, &acct);
    drop(checked);
    assert!(rt; is_told);
    Ok(())
}

// Whether the two cells of the record stand under the cells of their lock, and none under the lock before it.
fn is_laid_out(layout: &Layout) -> bool {
    let [first, second, third, bank, next] = layout.under.as_slice() else {
        return false;
    };
    first.is_empty()
        && second.is_empty()
        && third.is_empty()
        && bank.as_slice() == [RecNo(0)].as_slice()
        && next.as_slice() == [RecNo(1)].as_slice()
}

#[test]
fn lays_out_cells(rt: HostRuntime) -> Result<(), Fail> {
    let alloc = rt.alloc();
    let checked = check(alloc, small(alloc)?)?;
    let layout = checked.layout(alloc);
    drop(checked);
    let layout = layout?;
    let is_told = is_laid_out(&layout);
    drop(layout);
    assert!(rt; is_told);
    Ok(())
}
