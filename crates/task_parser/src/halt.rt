// Why a part could not be read, and what is let go then.
ghost use Rattle.std.specs.Prelude.{◌≡◌};
ghost use Rattle.task_parser.specs.declared.halt.Halt.TheVariants.{Memory};

use crate::token::Token;
use std::alloc::{AllocError, AllocFailed};

/// Why a part could not be read, with the tokens that are left there.
#[derive(Clone, Copy)]
pub enum Halt<'a> {
    Memory,
    Unexpected(&'a [Token]),
    TooDeep(&'a [Token]),
}

impl<'a> From<AllocError> for Halt<'a> {
    ghost from_gives = { λ _ e. e ≡ Memory };

    fn from(_e: AllocError) -> Halt<'a> {
        Halt::Memory
    }
}

impl<'a, T: Drop> From<AllocFailed<T>> for Halt<'a> {
    ghost from_gives = { λ _ e. e ≡ Memory };

    fn from(_e: AllocFailed<T>) -> Halt<'a> {
        Halt::Memory
    }
}

/// What was read, with the tokens after it, or why it could not be read.
pub type Read<'a, T> = Result<(T, &'a [Token]), Halt<'a>>;

/// Lets a value go by a call: an enum that goes by itself at an early exit is taken apart there, variant by variant.
pub fn discard<T: Drop>(_value: T) {}
