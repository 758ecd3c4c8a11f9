// Names with what was declared under them first.
ghost use Rattle.std.specs.Prelude.{◌≡◌, OnOk, Some, None, if◌then◌else◌};
ghost use Rattle.task_ast.specs.meaning.Names.{is_name};
ghost use Rattle.task_ast.specs.meaning.Tree as plain;
ghost use Rattle.lock_checker.specs.Tables.{found, or_else};

use gp_base::Name;
use std::alloc::{AllocError, Global};
use std::collections::BTreeMap;

/// What stands beside each name: the first that was put there.
pub struct SymbolTable<T: Copy> {
    pub first: BTreeMap<Vec<u8>, T>,
    alloc: Global,
}

impl<T: Copy> Drop for SymbolTable<T> {
    fn drop(self) {
        let Self { first: _, alloc: _ } = self;
    }
}

impl<T: Copy> SymbolTable<T> {
    /// An empty table. Takes no memory.
    pub fn new(alloc: Global) -> Self
        ensures { (y : plain.Name) → found result y ≡ None }
    {
        SymbolTable {
            first: BTreeMap::new(alloc),
            alloc,
        }
    }

    /// What stands beside the name, or `None`. Takes no memory.
    pub fn get(&self, x: &Name) -> Option<T>
        ensures { result ≡ found self.now x.now }
    {
        self.first.get(x.as_slice()).copied()
    }

    /// Puts a value beside a name, unless one stands there. The only error is out of memory.
    pub fn put(&mut self, x: &Name, value: T) -> Result<(), AllocError>
        ensures { OnOk result ((y : plain.Name) → found self.new y ≡ or_else (found self.old y) (if is_name y x.now then Some value else None)) }
    {
        if self.get(x).is_none() {
            let name = Vec::from_slice(self.alloc, x.as_slice())?;
            self.first.insert(name, value)?;
        }
        Ok(())
    }
}
