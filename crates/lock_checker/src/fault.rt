// Why a program isn't accepted.

use std::alloc::AllocError;
use task_ast::CheckKind;

/// Why a program isn't accepted: the rule that fails first with the line where it does, or out of memory.
#[derive(Clone, Copy, Debug)]
pub enum CheckFault {
    Bad { kind: CheckKind, line: u32 },
    OutOfMemory,
}

impl From<AllocError> for CheckFault {
    ghost use Rattle.std.specs.Prelude.{◌≡◌};
    ghost use Rattle.lock_checker.specs.declared.fault.CheckFault.TheVariants.{OutOfMemory};

    ghost from_gives = { λ _ e. e ≡ OutOfMemory };

    fn from(_error: AllocError) -> Self {
        CheckFault::OutOfMemory
    }
}
