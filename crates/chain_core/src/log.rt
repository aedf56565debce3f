//! Lemmas, and logs of them.
ghost use Rattle.std.specs.Prelude.{◌≡◌, ◌∷◌, ◌++◌, [], length, OnOk, OnErr, ◌<◌, ◌≤◌, All, Some, slice_get};
ghost use Rattle.lists_core.specs.declared.list_of.TheConstants.{MOST_ITEMS};

use crate::literal::Literal;
use lists_core::ListOf;
use std::alloc::{AllocError, Global};
use std::marker::Model;

/// The literals of a clause, in order.
pub type Literals = ListOf<Literal>;

/// Ids of clauses, in the order in which a chain follows them.
pub type Hints = ListOf<u32>;

/// A clause that follows from the clauses before it, with the ids of those that show it.
#[derive(Drop)]
pub struct Lemma {
    pub id: u32,
    pub literals: Literals,
    pub hints: Hints,
}

/// A list of lemmas.
#[derive(Drop)]
pub struct Log {
    lemmas: ListOf<Lemma>,
}

impl Model for Log {
    ghost use Rattle.std.specs.Prelude.{List, All};
    ghost use Rattle.chain_core.specs.declared.log.Lemma.{Lemma};
    ghost use Rattle.chain_core.specs.Lemma.{IsNumbered};

    ghost Value = { List Lemma };

    ghost view = { λ a. a.lemmas };

    ghost invariant = { λ a. All IsNumbered a.lemmas };
}

impl Log {
    ghost use Rattle.chain_core.specs.Lemma.{IsNumbered};

    /// The log with no lemma. Takes no memory.
    pub fn new(alloc: Global) -> Log
        ensures { result ≡ [] }
    {
        Log {
            lemmas: ListOf::new(alloc),
        }
    }

    /// Puts a lemma last. If memory runs out, the log stays as it was and the lemma is dropped.
    pub fn add(&mut self, lemma: Lemma) -> Result<(), AllocError>
        requires numbered { IsNumbered lemma }
        requires room { length self.old < MOST_ITEMS }
        ensures ok { OnOk result (self.new ≡ self.old ++ lemma ∷ []) }
        ensures err { OnErr result (self.new ≡ self.old) }
    {
        self.lemmas.push(lemma)
    }

    /// The number of lemmas.
    pub fn count(&self) -> u32
        ensures value { result ≡ length self.now }
        ensures bound { result ≤ MOST_ITEMS }
        ensures numbered { All IsNumbered self.now }
    {
        self.lemmas.len()
    }

    /// The lemma at place `k`, from 0.
    pub fn lemma(&self, k: u32) -> &Lemma
        requires { k < length self.now }
        ensures { slice_get self.now k ≡ Some result.now }
    {
        self.lemmas.get(k)
    }
}
