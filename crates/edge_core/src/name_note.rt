//! A note of the names that the calls of a shelf were given. Only contracts read it.
ghost use Rattle.std.specs.Prelude.{◌≡◌};
ghost use Rattle.std.specs.Borrow.{ftrue};
ghost use Rattle.edge_core.specs.Names.{Names, no_names, names_after};

use std::marker::Model;

/// What a call of a shelf did.
#[derive(Clone, Copy, Drop)]
pub(crate) enum Event<'a> {
    /// The file of this name is open.
    Opened(&'a str),
    /// The file of this name could not be opened, and none is open.
    NotOpened(&'a str),
    /// The open file could not be read.
    NotRead,
    /// No file is open.
    Closed,
}

/// The names so far. A note has no size, and its methods do nothing at run time.
#[derive(Drop)]
pub(crate) struct NameNote {
    ghost names: { Names },
}

impl Model for NameNote {
    ghost also_owns = { λ _. ftrue };
}

impl NameNote {
    pub(crate) fn new() -> NameNote
        ensures { result.names ≡ no_names }
    {
        NameNote {}
    }

    #[inline(always)]
    pub(crate) fn after(&self, _event: &Event<'_>) -> NameNote
        ensures { result.names ≡ names_after self.now.names _event.now }
    {
        NameNote {}
    }
}
