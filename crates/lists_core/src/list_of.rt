//! The generic list that the small list types are aliases of.
ghost use Rattle.std.specs.Prelude.{◌≡◌, [], ◌∷◌, ◌++◌, ◌<◌, ◌≤◌, Some, length, slice_get, OnOk, OnErr, IsTrue, ◌↔◌};

use std::alloc::{AllocError, Global};
use std::marker::Model;

/// The most items that a list holds. Their number and every place fit in 32 bits.
pub const MOST_ITEMS: u32 = 4_000_000_000;

/// A list of at most [`MOST_ITEMS`] items, which contracts see as the list of its items.
#[derive(Debug, Drop)]
pub struct ListOf<T> {
    items: Vec<T>,
}

impl<T> Model for ListOf<T> {
    ghost use Rattle.std.specs.Prelude.{List, ◌≤◌, length};
    ghost use Rattle.std.specs.Coded.{coded_list};
    ghost use Rattle.lists_core.specs.declared.list_of.TheConstants.{MOST_ITEMS};

    ghost Value = { List T };

    ghost coded = { coded_list T.code };

    ghost view = { λ list. list.items.items };

    ghost invariant = { λ list. length list.items.items ≤ MOST_ITEMS };
}

impl<T> ListOf<T> {
    /// The empty list. Takes no memory.
    pub fn new(alloc: Global) -> Self
        ensures { result ≡ [] }
    {
        ListOf {
            items: Vec::new(alloc),
        }
    }

    /// The list of a vector's items. Takes no memory.
    pub fn from_vec(items: Vec<T>) -> Self
        requires { length items.items ≤ 4000000000 }
        ensures { result ≡ items.items }
    {
        ListOf { items }
    }

    /// The items as a vector. Takes no memory.
    pub fn into_vec(self) -> Vec<T>
        ensures items { result.items ≡ self }
        ensures bound { length self ≤ 4000000000 }
    {
        self.items
    }

    /// The number of items.
    pub fn len(&self) -> u32
        ensures count { result ≡ length self.now }
        ensures bound { length self.now ≤ 4000000000 }
    {
        self.items.len() as u32
    }

    /// Whether there is no item.
    pub fn is_empty(&self) -> bool
        ensures { IsTrue result ↔ (self.now ≡ []) }
    {
        self.items.is_empty()
    }

    /// The item at place `k`, from 0.
    pub fn get(&self, k: u32) -> &T
        requires { k < length self.now }
        ensures { slice_get self.now k ≡ Some result.now }
    {
        &self.items[k as usize]
    }

    /// The items in order, as a slice.
    pub fn as_slice(&self) -> &[T]
        ensures items { result.now ≡ self.now }
        ensures bound { length self.now ≤ 4000000000 }
    {
        self.items.as_slice()
    }
}

impl<T: Drop> ListOf<T> {
    /// Puts an item last. If memory runs out, the list stays as it was and the item is dropped.
    pub fn push(&mut self, item: T) -> Result<(), AllocError>
        requires { length self.old < 4000000000 }
        ensures ok { OnOk result (self.new ≡ self.old ++ item ∷ []) }
        ensures err { OnErr result (self.new ≡ self.old) }
    {
        self.items.push(item)?;
        Ok(())
    }
}
