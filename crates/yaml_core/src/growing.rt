//! Items while they are gathered.
ghost use Rattle.std.specs.Prelude.{◌≡◌, [], ◌∷◌, ◌++◌, OnOk};

use sqlite_items::Items;
use std::alloc::{AllocError, Global};
use std::marker::Model;

/// Items in order while they are gathered, which contracts see as their list. In the end they take no more
/// memory than they need.
#[derive(Drop)]
pub(crate) struct Growing<T> {
    items: Vec<T>,
}

impl<T> Model for Growing<T> {
    ghost use Rattle.std.specs.Prelude.{List};
    ghost use Rattle.std.specs.Coded.{coded_list};

    ghost Value = { List T };

    ghost coded = { coded_list T.code };

    ghost view = { λ growing. growing.items.items };
}

impl<T> Growing<T> {
    /// No item. Takes no memory.
    pub(crate) fn new(alloc: Global) -> Growing<T>
        ensures { result ≡ [] }
    {
        Growing {
            items: Vec::new(alloc),
        }
    }
}

impl<T: Drop> Growing<T> {
    /// Puts one more at the end. Room is doubled from 1 on, so that a list of few items leaves no gap behind it.
    pub(crate) fn push(&mut self, item: T) -> Result<(), AllocError>
        ensures { OnOk result (self.new ≡ self.old ++ item ∷ []) }
    {
        let len = self.items.len();
        if len == self.items.capacity() {
            self.items.reserve_exact(len.max(1))?;
        }
        self.items.push(item)?;
        Ok(())
    }

    /// The items, without room for more.
    pub(crate) fn into_items(self) -> Items<T>
        ensures { result ≡ self }
    {
        let Growing { mut items } = self;
        items.shrink_to_fit();
        Items::from_vec(items)
    }
}
