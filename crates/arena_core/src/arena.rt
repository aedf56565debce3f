//! Clauses that lie one after another in one flat vector.
ghost use Rattle.std.specs.Prelude.{◌≡◌, ◌+◌, ◌<◌, ◌≤◌, [], ◌∷◌, ◌++◌, length, IfOk, OnOk, OnErr, slice_index_or, slice_set, swap};

use crate::lit::Lit;
use crate::steps::Steps;
use rows_core::Rows;
use std::alloc::{AllocError, Global};
use std::marker::Model;
use std::sync::ledger::Ledger;

/// The most clauses of an arena, so that twice their number and one more fits 32 bits.
pub const MOST_CLAUSES: u32 = 2_100_000_000;

/// The most literals of a clause.
pub const MOST_LITERALS: u32 = 2_147_483_647;

/// The number of a clause in its arena, from 0 in the order in which clauses were pushed.
#[derive(Clone, Copy, Debug, PartialEq, Eq)]
pub struct ClauseId {
    number: u32,
}

impl Model for ClauseId {
    ghost use Rattle.std.specs.Prelude.{ℕ, ◌<◌};
    ghost use Rattle.arena_core.specs.declared.arena.TheConstants.{MOST_CLAUSES};

    ghost Value = { ℕ };

    ghost view = { λ c. c.number };

    ghost invariant = { λ c. c.number < MOST_CLAUSES };

    ghost inverse = { λ n. record { number = n } };
}

impl ClauseId {
    /// The clause of a number.
    #[inline]
    pub fn numbered(number: u32) -> ClauseId
        requires { number < MOST_CLAUSES }
        ensures { result ≡ number }
    {
        ClauseId { number }
    }

    /// The number of the clause.
    #[inline]
    pub fn number(self) -> u32
        ensures value { result ≡ self }
        ensures small { result < MOST_CLAUSES }
    {
        self.number
    }
}

/// A list of clauses, each a list of literals.
///
/// Only `push` takes memory. A `ClauseId` is used with the arena that gave it.
#[derive(Drop)]
pub struct Arena<L: Lit> {
    rows: Rows<L>,
}

impl<L: Lit> Model for Arena<L> {
    ghost use Rattle.std.specs.Prelude.{List};
    ghost use Rattle.arena_core.specs.Arena.{IsSmall};

    ghost Value = { List (List L) };

    ghost view = { λ a. a.rows };

    ghost invariant = { λ a. IsSmall a.rows };
}

impl<L: Lit> Arena<L> {
    /// No clauses. Takes no memory.
    pub fn new(alloc: Global) -> Arena<L>
        ensures { result ≡ [] }
    {
        Arena {
            rows: Rows::new(alloc),
        }
    }

    /// How many clauses there are.
    #[inline]
    pub fn count(&self) -> u32
        ensures { result ≡ length self.now }
    {
        self.rows.count() as u32
    }

    /// Puts a clause last, and returns its number. Out of memory, the arena stays as it was.
    pub fn push(&mut self, literals: &[L]) -> Result<ClauseId, AllocError>
        requires room { length self.old < MOST_CLAUSES }
        requires short { length literals.now ≤ MOST_LITERALS }
        ensures id { IfOk result (λ id. id ≡ length self.old) }
        ensures clause { OnOk result (self.new ≡ self.old ++ literals.now ∷ []) }
        ensures err { OnErr result (self.new ≡ self.old) }
    {
        let number = self.rows.count() as u32;
        self.rows.push(literals)?;
        Ok(ClauseId { number })
    }

    /// The literals of a clause, borrowed, at the price of one look.
    #[inline]
    pub fn literals<S: Ledger>(&self, id: ClauseId, looks: &mut Steps<S>) -> &[L]
        requires { id < length self.now }
        ensures clause { result.now ≡ slice_index_or self.now id [] }
        ensures look { looks.new ≡ looks.old + 1 }
        ensures short { length result.now ≤ MOST_LITERALS }
    {
        looks.tick();
        self.rows.row(id.number as usize)
    }

    /// How many literals a clause has.
    #[inline]
    pub fn len(&self, id: ClauseId) -> u32
        requires { id < length self.now }
        ensures { result ≡ length (slice_index_or self.now id []) }
    {
        self.rows.row(id.number as usize).len() as u32
    }

    /// Exchanges the literals at places `i` and `j` of a clause.
    #[inline]
    pub fn swap(&mut self, id: ClauseId, i: u32, j: u32)
        requires clause { id < length self.old }
        requires first { i < length (slice_index_or self.old id []) }
        requires second { j < length (slice_index_or self.old id []) }
        ensures { self.new ≡ slice_set self.old id (swap (slice_index_or self.old id []) i j) }
    {
        self.rows.swap(id.number as usize, i as usize, j as usize);
    }
}
