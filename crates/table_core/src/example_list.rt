//! Examples: alternatives with a category.
ghost use Rattle.std.specs.Prelude.{◌≡◌, ◌∷◌, ◌++◌, [], ◌<◌, ◌≤◌, length, All, OnOk, OnErr};
ghost use Rattle.table_core.specs.Examples.{example_at};

use problem_core::Grade;
use rows_core::Rows;
use std::alloc::{AllocError, Global};
use std::marker::Model;

/// Alternatives by their grades, each with its category. Contracts see them as a list. At most 4,000,000,000 of them.
#[derive(Drop)]
pub struct Examples {
    grades: Rows<Grade>,
    categories: Vec<u32>,
}

impl Model for Examples {
    ghost use Rattle.std.specs.Prelude.{◌≡◌, ◌≤◌, List, length};
    ghost use Rattle.sorting_rule.specs.Examples.{Example};
    ghost use Rattle.table_core.specs.Examples.{examples_of};

    ghost Value = { List Example };

    ghost view = { λ e. examples_of e.grades e.categories.items };

    ghost invariant = { λ e. (length e.grades ≡ length e.categories.items) × (length e.categories.items ≤ 4000000000) };
}

impl Examples {
    /// No examples. Takes no memory.
    pub fn empty(alloc: Global) -> Examples
        ensures { result ≡ [] }
    {
        Examples {
            grades: Rows::new(alloc),
            categories: Vec::new(alloc),
        }
    }

    /// The number of examples.
    pub fn count(&self) -> u32
        ensures count { result ≡ length self.now }
        ensures bound { length self.now ≤ 4000000000 }
    {
        self.categories.len() as u32
    }

    /// The grades of an example, in the problem's order of criteria.
    pub fn grades(&self, row: u32) -> &[Grade]
        requires { row < length self.now }
        ensures { result.now ≡ (example_at self.now row).grades }
    {
        self.grades.row(row as usize)
    }

    /// The category of an example.
    pub fn category(&self, row: u32) -> u32
        requires { row < length self.now }
        ensures { result ≡ (example_at self.now row).category }
    {
        self.categories[row as usize]
    }

    /// Puts an example last. Out of memory leaves the examples as they were.
    pub fn push(&mut self, grades: &[Grade], category: u32) -> Result<(), AllocError>
        requires room { length self.old < 4000000000 }
        requires same { All (λ e. length e.grades ≡ length grades.now) self.old }
        ensures ok { OnOk result (self.new ≡ self.old ++ record { grades = grades.now; category = category } ∷ []) }
        ensures err { OnErr result (self.new ≡ self.old) }
    {
        self.categories.push(category)?;
        match self.grades.push(grades) {
            Ok(()) => Ok(()),
            Err(_) => {
                self.categories.pop();
                Err(AllocError)
            }
        }
    }
}
