//! Rows of items that lie one after another in one flat vector.
#![tactic(auto)]

ghost use Rattle.std.specs.Prelude.{◌≡◌, ℕ, ◌+◌, ◌<◌, ◌≤◌, ◌^◌, List, [], ◌∷◌, ◌++◌, length, OnOk, OnErr, slice_index_or, slice_set, swap};

use std::alloc::{AllocError, Global};
use std::marker::Model;

/// Where a row lies among the items: from `start` to before `end`.
#[derive(Clone, Copy, Debug, PartialEq, Eq)]
pub struct Span {
    pub start: usize,
    pub end: usize,
}

/// A list of rows, which contracts see as a list of lists.
///
/// All items lie in one vector, so a row needs no allocation of its own.
#[derive(Drop)]
pub struct Rows<T> {
    items: Vec<T>,
    spans: Vec<Span>,
}

impl<T> Model for Rows<T> {
    ghost use Rattle.std.specs.Prelude.{List};
    ghost use Rattle.rows_core.specs.Rows.{rows_of, InOrder};

    ghost Value = { List (List T) };

    ghost view = { λ a. rows_of a.items.items a.spans.items };

    ghost invariant = { λ a. InOrder a.items.items a.spans.items };
}

impl<T: Copy> Rows<T> {
    /// No rows. Takes no memory.
    pub fn new(alloc: Global) -> Self
        ensures { result ≡ [] }
    {
        Rows {
            items: Vec::new(alloc),
            spans: Vec::new(alloc),
        }
    }

    /// The number of rows.
    pub fn count(&self) -> usize
        ensures { result ≡ length self.now }
    {
        self.spans.len()
    }

    /// The row at place `k`, from 0.
    pub fn row(&self, k: usize) -> &[T]
        requires { k < length self.now }
        ensures { result.now ≡ slice_index_or self.now k [] }
    {
        let span = self.spans[k];
        &self.items[span.start..span.end]
    }

    /// Puts a row last. If memory runs out, the rows stay as they were.
    pub fn push(&mut self, row: &[T]) -> Result<(), AllocError>
        ensures ok { OnOk result (self.new ≡ self.old ++ row.now ∷ []) }
        ensures err { OnErr result (self.new ≡ self.old) }
    {
        let start = self.items.len();
        self.items.extend_from_slice(row)?;
        let end = self.items.len();
        match self.spans.push(Span { start, end }) {
            Ok(()) => Ok(()),
            Err(_) => {
                self.items.truncate(start);
                Err(AllocError)
            }
        }
    }

    /// Swaps the items at places `i` and `j` of row `k`.
    pub fn swap(&mut self, k: usize, i: usize, j: usize)
        requires row { k < length self.old }
        requires first { i < length (slice_index_or self.old k []) }
        requires second { j < length (slice_index_or self.old k []) }
        ensures { self.new ≡ slice_set self.old k (swap (slice_index_or self.old k []) i j) }
    {
        let start = self.spans[k].start;
        self.items.swap(start + i, start + j);
    }
}
