// What a call is to do.
ghost use Rattle.std.specs.Prelude.{◌≡◌};
ghost use Rattle.call_cases.specs.meaning.Work.{runs};

use command_line::{Asked, Command};
use gp_base::{Faults, Inputs};
use lock_checker::Checked;

/// What a call is to do: what its words ask for, on an accepted program, from these inputs, with these faults.
#[derive(Drop)]
pub struct Request {
    pub asked: Asked,
    pub checked: Checked,
    pub inputs: Inputs,
    pub faults: Faults,
}

/// Whether the command runs its program, and does not only check it.
pub fn runs(command: Command) -> bool
    ensures { result ≡ runs command }
{
    !matches!(command, Command::Check)
}
