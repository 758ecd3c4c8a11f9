// The statements that a thread has left.
ghost use Rattle.std.specs.Prelude.{◌≡◌, [], ◌∷◌, ◌++◌, IfNone, IfSome, OnOk};
ghost use Rattle.task_ast.specs.View.{plain_stmt, plain_stmts};
ghost use Rattle.one_thread.specs.inner.Remaining.{left_of, rest_of};

use std::alloc::{AllocError, Global};
use task_ast::Stmt;

/// The statements left: those of the present block, then those of the blocks around it, of which the innermost stands
/// last.
#[derive(Drop)]
pub struct Left<'a> {
    pub present: &'a [Stmt],
    pub around: Vec<&'a [Stmt]>,
}

impl<'a> Left<'a> {
    /// The statements of a block.
    pub fn new(alloc: Global, block: &'a [Stmt]) -> Left<'a>
        ensures { left_of result ≡ plain_stmts block.now }
    {
        Left {
            present: block,
            around: Vec::new(alloc),
        }
    }

    /// The first statement left. Blocks that are done are left.
    pub fn first(&mut self) -> Option<&'a Stmt>
        ensures same { left_of self.new ≡ left_of self.old }
        ensures none { IfNone result (left_of self.new ≡ []) }
        ensures one { IfSome result (λ s. left_of self.new ≡ plain_stmt s.now ∷ rest_of self.new) }
    {
        loop {
            if let [s, ..] = self.present {
                return Some(s);
            }
            self.present = self.around.pop()?;
        }
    }

    /// Passes the first statement of the present block.
    pub fn pass(&mut self)
        ensures { left_of self.new ≡ rest_of self.old }
    {
        if let [_, rest @ ..] = self.present {
            self.present = rest;
        }
    }

    /// Puts the statements of a block before those that are left.
    pub fn enter(&mut self, block: &'a [Stmt]) -> Result<(), AllocError>
        ensures { OnOk result (left_of self.new ≡ plain_stmts block.now ++ left_of self.old) }
    {
        self.around.push(self.present)?;
        self.present = block;
        Ok(())
    }
}
