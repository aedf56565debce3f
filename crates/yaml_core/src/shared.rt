//! Values that several owners share.
ghost use Rattle.std.specs.Prelude.{◌≡◌, IfOk};

use sqlite_items::Items;
use std::alloc::{AllocError, Global};
use std::marker::Model;
use std::rc::Rc;

/// A value with one owner or several, which contracts see as the value. It is dropped with its last owner.
#[derive(Drop)]
pub struct Shared<T> {
    held: Rc<T>,
}

impl<T> Model for Shared<T> {
    ghost Value = { T };

    ghost coded = { T.code };

    ghost view = { λ shared. shared.held.value };
}

impl<T: Drop> Shared<T> {
    /// A value with one owner. Moves it to memory of its own.
    pub(crate) fn new(alloc: Global, value: T) -> Result<Shared<T>, AllocError>
        ensures { IfOk result (λ shared. shared ≡ value) }
    {
        Ok(Shared {
            held: Rc::new(alloc, value)?,
        })
    }

    /// One more owner of the same value. Takes constant time and no memory; fails if the owners can't be counted.
    pub(crate) fn share(&self) -> Result<Shared<T>, AllocError>
        ensures { IfOk result (λ shared. shared ≡ self.now) }
    {
        Ok(Shared {
            held: self.held.clone()?,
        })
    }
}

impl<T: Drop> Shared<Items<T>> {
    /// The items in order.
    pub fn as_slice(&self) -> &[T]
        ensures { result.now ≡ self.now }
    {
        self.held.as_slice()
    }
}
