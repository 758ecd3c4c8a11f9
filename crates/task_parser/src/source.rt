// What is read, and what the bytes of a token stand for.
ghost use Rattle.std.specs.Prelude.{◌≡◌, IfOk};
ghost use Rattle.task_parser.specs.meaning.Expressions.{between, name_of, reg_name};
ghost use Rattle.task_parser.specs.inner.ExpressionReaders.{number_of};
ghost use Rattle.task_parser.specs.meaning.Programs.{file_of};

use crate::token::{Kind, Token};
use gp_base::Name;
use std::alloc::{AllocError, Global};

/// The text that is read, and where its trees are allocated.
#[derive(Clone, Copy)]
pub struct Source<'t> {
    pub alloc: Global,
    pub text: &'t [u8],
}

// The bytes of the text between two places, as far as the text goes.
fn bytes_between(text: &[u8], from: usize, to: usize) -> &[u8]
    ensures { result.now ≡ between text.now from to }
{
    let to = to.min(text.len());
    if from >= to {
        return &[];
    }
    &text[from..to]
}

impl Source<'_> {
    /// The bytes of a name.
    pub fn name(self, token: Token) -> Result<Name, AllocError>
        ensures { IfOk result (λ n. n ≡ name_of self.entry.text.now token) }
    {
        let bytes = bytes_between(self.text, token.from as usize, token.to as usize);
        Name::from_slice(self.alloc, bytes)
    }

    /// The bytes of a data variable, without its `$`.
    pub fn register(self, token: Token) -> Result<Name, AllocError>
        ensures { IfOk result (λ n. n ≡ reg_name self.entry.text.now token) }
    {
        let bytes = bytes_between(self.text, token.from as usize + 1, token.to as usize);
        Name::from_slice(self.alloc, bytes)
    }

    /// The name of a file, without its quotes.
    pub fn file(self, token: Token) -> Result<Name, AllocError>
        ensures { IfOk result (λ n. n ≡ file_of self.entry.text.now token) }
    {
        let to = (token.to as usize).saturating_sub(1);
        let bytes = bytes_between(self.text, token.from as usize + 1, to);
        Name::from_slice(self.alloc, bytes)
    }
}

/// The value of a number.
pub fn number(token: Token) -> i64
    ensures { result ≡ number_of token }
{
    match token.kind {
        Kind::Num(value) => value,
        _ => 0,
    }
}
