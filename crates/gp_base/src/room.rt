// A list with reserved room.
ghost use Rattle.std.specs.Prelude.{◌≡◌, ◌+◌, ◌<◌, ◌≤◌, [], ◌∷◌, ◌++◌, length, OnOk, OnErr};

use crate::Seq;
use std::alloc::{AllocError, Global};
use std::marker::Model;

/// A list with room for further elements, whose memory is taken first. Contracts see its elements and how many more
/// the room holds.
#[derive(Drop)]
pub struct Room<T> {
    items: Vec<T>,
}

impl<T> Model for Room<T> {
    ghost use Rattle.std.specs.Prelude.{◌-◌, vec_len};
    ghost use Rattle.std.specs.Vec.{vec_capacity};
    ghost use Rattle.gp_base.specs.Reserved.{Reserved, reserved_code};

    ghost Value = { Reserved T };

    ghost coded = { reserved_code T.code };

    ghost view = { λ r. record { items = r.items.items; spare = vec_capacity r.items - vec_len r.items } };
}

impl<T> Room<T> {
    /// The empty list. Takes no memory.
    pub fn new(alloc: Global) -> Room<T>
        ensures { result.items ≡ [] }
    {
        Room {
            items: Vec::new(alloc),
        }
    }

    /// The elements, in order.
    pub fn as_slice(&self) -> &[T]
        ensures { result.now ≡ self.now.items }
    {
        self.items.as_slice()
    }

    /// How many elements there are.
    pub fn len(&self) -> usize
        ensures { result ≡ length self.now.items }
    {
        self.items.len()
    }

    /// Makes room for so many more elements, beside those that are there. Unchanged where there is no memory for it.
    pub fn reserve(&mut self, more: usize) -> Result<(), AllocError>
        ensures items { self.new.items ≡ self.old.items }
        ensures kept { self.old.spare ≤ self.new.spare }
        ensures ok { OnOk result (more ≤ self.new.spare) }
        ensures err { OnErr result (self.new ≡ self.old) }
    {
        self.items.reserve(more)
    }

    /// The list of the elements, without the room. Takes no memory.
    pub fn into_seq(self) -> Seq<T>
        ensures { result ≡ self.items }
    {
        Seq::from_vec(self.items)
    }
}

impl<T: Drop> Room<T> {
    /// Puts an element at the end, into the room. Takes no memory.
    pub fn push(&mut self, item: T)
        requires { 0 < self.old.spare }
        ensures items { self.new.items ≡ self.old.items ++ item ∷ [] }
        ensures spare { self.old.spare ≤ self.new.spare + 1 }
    {
        match self.items.push(item) {
            Ok(()) => {}
            Err(_) => unreachable!(),
        }
    }
}
