// The record cells that data statements of code name.
ghost use Rattle.std.specs.Prelude.{◌≡◌, OnOk};
ghost use Rattle.task_code.specs.Reading.{deed_action, deeds_arm};
ghost use Rattle.task_code.specs.View.{plain_deed, plain_arm};
ghost use Rattle.subthread.specs.inner.Running.{env_in, Notes, ArmNotes};

use crate::ground::Ground;
use crate::names::Names;
use crate::numbers::narrow;
use crate::values::cell_at;
use std::alloc::AllocError;
use task_code::Deed;

/// Notes the cells that a data statement names, in both arms of a choice.
#[cycle(noting)]
#[tactic(auto, using(task_code::proofs::Views::view))]
pub fn note(deed: &Deed, ground: &Ground, ctl: &[i64], names: &mut Names) -> Result<(), AllocError>
    ensures { OnOk result (Notes (deed_action (plain_deed deed.now) (env_in ground.now ctl.now)) names.old names.new) }
{
    match deed {
        Deed::SetReg(_, _) => Ok(()),
        Deed::Read(cells, i, _) => match cell_at(*cells, *i, ctl) {
            Some(cell) => names.read(narrow(cell)?),
            None => Ok(()),
        },
        Deed::Write(cells, i, _) => match cell_at(*cells, *i, ctl) {
            Some(cell) => names.write(narrow(cell)?),
            None => Ok(()),
        },
        Deed::Print(_) => Ok(()),
        Deed::When(_, first, second) => {
            note_all(first.as_slice(), ground, ctl, names)?;
            note_all(second.as_slice(), ground, ctl, names)
        }
    }
}

#[cycle(noting)]
#[tactic(auto, using(task_code::proofs::Views::view))]
fn note_all(
    deeds: &[Deed],
    ground: &Ground,
    ctl: &[i64],
    names: &mut Names,
) -> Result<(), AllocError>
    ensures { OnOk result (ArmNotes (deeds_arm (plain_arm deeds.now) (env_in ground.now ctl.now)) names.old names.new) }
{
    for deed in deeds {
        note(deed, ground, ctl, names)?;
    }
    Ok(())
}
