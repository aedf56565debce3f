//! What values mean. Only clauses read it; it takes no memory and does nothing at run time.
ghost use Rattle.std.specs.Prelude.{◌≡◌, List};
ghost use Rattle.std.specs.Borrow.{ftrue};
ghost use Rattle.yaml_core.specs.Measured.{Measured, measured_code, Entry, entry_code};
ghost use Rattle.std.specs.Coded.{coded_list};

use crate::value::{Mapping, Value, Values};
use std::marker::Model;
use yaml_tokens::Text;

/// What a value comes from.
#[derive(Clone, Copy, Drop)]
pub(crate) enum Origin<'a> {
    /// No value.
    Null,
    /// A plain scalar.
    Scalar(&'a Text),
    /// A quoted scalar.
    Quoted(&'a Text),
    /// A list of these.
    List(&'a Values),
    /// A mapping of these.
    Map(&'a Mapping),
    /// The same value.
    Same(&'a Value),
}

/// What values come from.
#[derive(Clone, Copy, Drop)]
pub(crate) enum Gathered<'a> {
    /// No value.
    Nothing,
    /// Values, and one more after them.
    More(&'a Values, &'a Value),
}

/// What entries come from.
#[derive(Clone, Copy, Drop)]
pub(crate) enum Entered<'a> {
    /// No entry.
    Nothing,
    /// Entries, and one more after them.
    More(&'a Mapping, &'a Text, &'a Value),
}

/// The node that a value means.
#[derive(Drop)]
pub(crate) struct ValueNote {
    ghost measured: { Measured } by { measured_code },
}

impl Model for ValueNote {
    ghost also_owns = { λ _. ftrue };
}

/// The nodes that values mean.
#[derive(Drop)]
pub(crate) struct ValuesNote {
    ghost measured: { List Measured } by { coded_list measured_code },
}

impl Model for ValuesNote {
    ghost also_owns = { λ _. ftrue };
}

/// The entries that a mapping means.
#[derive(Drop)]
pub(crate) struct EntriesNote {
    ghost entries: { List Entry } by { coded_list entry_code },
}

impl Model for EntriesNote {
    ghost also_owns = { λ _. ftrue };
}

impl ValueNote {
    ghost use Rattle.std.specs.Prelude.{◌≡◌};
    ghost use Rattle.yaml_core.specs.Origins.{node_from};

    /// The note of the node that comes from there.
    #[inline(always)]
    pub(crate) fn of(_origin: &Origin<'_>) -> ValueNote
        ensures { result.measured ≡ node_from _origin.now }
    {
        ValueNote {}
    }
}

impl ValuesNote {
    ghost use Rattle.std.specs.Prelude.{◌≡◌};
    ghost use Rattle.yaml_core.specs.Origins.{nodes_from};

    /// The note of the nodes that come from there.
    #[inline(always)]
    pub(crate) fn of(_gathered: &Gathered<'_>) -> ValuesNote
        ensures { result.measured ≡ nodes_from _gathered.now }
    {
        ValuesNote {}
    }
}

impl EntriesNote {
    ghost use Rattle.std.specs.Prelude.{◌≡◌};
    ghost use Rattle.yaml_core.specs.Origins.{entries_from};

    /// The note of the entries that come from there.
    #[inline(always)]
    pub(crate) fn of(_entered: &Entered<'_>) -> EntriesNote
        ensures { result.entries ≡ entries_from _entered.now }
    {
        EntriesNote {}
    }
}
