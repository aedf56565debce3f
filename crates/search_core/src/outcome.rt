//! The outcomes of a search.
ghost use Rattle.std.specs.Prelude.{◌≡◌, ◌≤◌, length};
ghost use Rattle.search_core.specs.Values.{value_at};

use chain_core::Log;
use std::marker::Model;

/// The greatest number of lemmas that a search may be allowed.
pub const MOST_LEMMAS: u64 = 1_000_000;

/// One truth value for each variable of a formula.
///
/// Contracts see the list of the values, that of variable 1 first.
#[derive(Drop)]
pub struct Values {
    values: Vec<bool>,
}

impl Model for Values {
    ghost use Rattle.std.specs.Prelude.{List, Bool, length, ◌≤◌};
    ghost use Rattle.chain_core.specs.declared.literal.TheConstants.{GREATEST_VARIABLE};

    ghost Value = { List Bool };

    ghost view = { λ a. a.values.items };

    ghost invariant = { λ a. length a.values.items ≤ GREATEST_VARIABLE };
}

impl Values {
    ghost use Rattle.std.specs.Prelude.{length};
    ghost use Rattle.chain_core.specs.declared.literal.TheConstants.{GREATEST_VARIABLE};

    /// Makes the values of the variables from 1 on.
    pub(crate) fn of(values: Vec<bool>) -> Values
        requires { length values.items ≤ GREATEST_VARIABLE }
        ensures { result ≡ values.items }
    {
        Values { values }
    }

    /// The number of variables.
    pub fn count(&self) -> u32
        ensures { result ≡ length self.now }
    {
        self.values.len() as u32
    }

    /// The value of a variable, from 1.
    pub fn value(&self, variable: u32) -> bool
        requires from { 1 ≤ variable }
        requires to { variable ≤ length self.now }
        ensures { result ≡ value_at self.now variable }
    {
        self.values[(variable - 1) as usize]
    }

    /// All values, that of variable 1 first.
    pub fn as_slice(&self) -> &[bool]
        ensures { result.now ≡ self.now }
    {
        self.values.as_slice()
    }
}

/// How a search ends.
#[derive(Drop)]
pub enum Outcome {
    /// Values that make every clause true.
    Sat(Values),
    /// A refutation: no values make every clause true.
    Unsat(Log),
    /// As many lemmas as the search was allowed, none of them empty.
    Limit(Log),
}
