//! Cells of a row.
ghost use Rattle.std.specs.Prelude.{◌≡◌, ◌<◌, ℕ, List, [], length, slice_index_or};

use crate::row::Texts;

/// The cells of a row, wherever they are kept.
pub trait Cells {
    ghost cells: { Self → List (List ℕ) };

    /// The number of cells.
    fn count(&self) -> usize
        ensures { result ≡ length (cells self.now) };

    /// The cell at place `k`, from 0.
    fn cell(&self, k: usize) -> &str
        requires { k < length (cells self.now) }
        ensures { result.now ≡ slice_index_or (cells self.now) k [] };
}

impl Cells for Texts {
    ghost cells = { λ texts. texts };

    fn count(&self) -> usize {
        self.as_slice().len()
    }

    fn cell(&self, k: usize) -> &str {
        self.as_slice()[k].as_str()
    }
}
