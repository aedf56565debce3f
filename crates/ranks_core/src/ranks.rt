//! Ranks of all criteria.
ghost use Rattle.std.specs.Prelude.{◌≡◌, [], ◌<◌, length, slice_index_or, slice_get, Some, IfOk};
ghost use Rattle.encoding_rules.specs.Task.{IsTask};
ghost use Rattle.ranks_core.specs.Ranks.{task_of, AreRanks};

use crate::ranked::{places_of, ranked_grades};
use problem_core::{Grade, Problem};
use rows_core::Rows;
use std::alloc::{AllocError, Global};
use std::marker::Model;
use table_core::Examples;

/// For each criterion the distinct grades of the examples in rising preference, and the place of each example's grade.
#[derive(Drop)]
pub struct Ranks {
    grades: Rows<Grade>,
    places: Rows<u32>,
}

impl Model for Ranks {
    ghost use Rattle.std.specs.Prelude.{◌≤◌, length, All};
    ghost use Rattle.ranks_core.specs.Ranks.{RanksValue};

    ghost Value = { RanksValue };

    ghost view = { λ r. record { grades = r.grades; places = r.places } };

    ghost invariant = { λ r. All (λ row. length row ≤ 4000000000) r.grades };
}

impl Ranks {
    /// The ranks of examples of a problem.
    pub fn of(alloc: Global, problem: &Problem, examples: &Examples) -> Result<Ranks, AllocError>
        requires { IsTask (task_of problem.now examples.now) }
        ensures { IfOk result (AreRanks (task_of problem.now examples.now)) }
    {
        let mut grades = Rows::new(alloc);
        let mut places = Rows::new(alloc);
        for i in 0..problem.criteria_count() {
            let scale = &problem.criterion(i).scale;
            let ranked = ranked_grades(alloc, scale, examples, i)?;
            let own = places_of(alloc, scale, examples, i, &ranked)?;
            grades.push(&ranked)?;
            places.push(&own)?;
        }
        Ok(Ranks { grades, places })
    }

    /// The number of distinct grades on a criterion.
    pub fn count(&self, i: u32) -> u32
        requires { i < length self.now.grades }
        ensures { result ≡ length (slice_index_or self.now.grades i []) }
    {
        self.grades.row(i as usize).len() as u32
    }

    /// The place of an example's grade on a criterion.
    pub fn rank(&self, i: u32, row: u32) -> u32
        requires criterion { i < length self.now.places }
        requires row { row < length (slice_index_or self.now.places i []) }
        ensures { slice_get (slice_index_or self.now.places i []) row ≡ Some result }
    {
        self.places.row(i as usize)[row as usize]
    }

    /// The grade of a criterion at a place.
    pub fn grade(&self, i: u32, k: u32) -> Grade
        requires criterion { i < length self.now.grades }
        requires place { k < length (slice_index_or self.now.grades i []) }
        ensures { slice_get (slice_index_or self.now.grades i []) k ≡ Some result }
    {
        self.grades.row(i as usize)[k as usize]
    }
}
