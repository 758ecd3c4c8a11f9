// Which record cells code names.
ghost use Rattle.std.specs.Prelude.{◌≡◌, IsTrue};
ghost use Rattle.task_code.specs.View.{plain_deed, plain_arm, plain_does, plain_instrs};
ghost use Rattle.running_tests.specs.Named.{IsBelow, DeedBelow, ArmBelow, DoesBelow, AllBelow, NamesBelow};

use subthread::Work;
use task_code::{CellRange, Deed, Does, Instr};

fn is_below(most: u64, cells: CellRange) -> bool
    ensures { IsTrue result → IsBelow most cells }
{
    cells.first as u64 + cells.size as u64 <= most
}

// Whether a data statement names only cells below this one.
#[cycle(naming)]
#[tactic(auto, using(task_code::proofs::Views::view))]
fn deed_below(most: u64, deed: &Deed) -> bool
    ensures { IsTrue result → DeedBelow most (plain_deed deed.now) }
{
    match deed {
        Deed::SetReg(_, _) => true,
        Deed::Read(cells, _, _) => is_below(most, *cells),
        Deed::Write(cells, _, _) => is_below(most, *cells),
        Deed::Print(_) => true,
        Deed::When(_, first, second) => {
            if arm_below(most, first.as_slice()) {
                arm_below(most, second.as_slice())
            } else {
                false
            }
        }
    }
}

#[cycle(naming)]
#[tactic(auto, using(task_code::proofs::Views::view))]
fn arm_below(most: u64, deeds: &[Deed]) -> bool
    ensures { IsTrue result → ArmBelow most (plain_arm deeds.now) }
{
    for deed in deeds {
        if !deed_below(most, deed) {
            return false;
        }
    }
    true
}

fn does_below(most: u64, does: &Does) -> bool
    ensures { IsTrue result → DoesBelow most (plain_does does.now) }
{
    match does {
        Does::Do(deed) => deed_below(most, deed),
        _ => true,
    }
}

fn all_below(most: u64, instrs: &[Instr]) -> bool
    ensures { IsTrue result → AllBelow most (plain_instrs instrs.now) }
{
    for instr in instrs {
        if !does_below(most, &instr.does) {
            return false;
        }
    }
    true
}

/// Whether the code of a task names only record cells below this one, and walks are made once.
pub fn names_below(work: &Work, task: u32, most: u64) -> bool
    ensures { IsTrue result → NamesBelow most work.now task }
{
    !work.recheck.is_on() && all_below(most, work.code.instrs(task))
}
