//! Models: thresholds for each criterion, and coalitions for each boundary.
ghost use Rattle.std.specs.Prelude.{◌≡◌, ◌-◌, ◌<◌, ◌≤◌, Some, length, slice_get};

use fixed_core::Fixed;
use lists_core::ListOf;
use problem_core::{Grade, Problem};
use std::marker;

/// The thresholds of a criterion from boundary 1 on: a grade, or `None` (null), which accepts nothing.
pub type Grades = ListOf<Option<Grade>>;

/// Weights in the order of the criteria, in units of 10^-18.
pub type Fixeds = ListOf<Fixed>;

/// Sets of criteria. A set is a mask: its bit i stands for criterion i.
pub type Masks = ListOf<u32>;

/// What a criterion accepts at each boundary.
#[derive(Drop)]
pub struct Profile {
    /// The threshold at each boundary, boundary 1 first.
    pub thresholds: Grades,
}

/// Which sets of criteria are sufficient.
#[derive(Drop)]
pub enum Coalitions {
    /// Those whose weights sum to at least 1.
    Weights(Fixeds),
    /// Those that contain one of these sets.
    Roots(Masks),
}

/// A profile for each criterion, in the problem's order, and coalitions for each boundary, boundary 1 first. Each
/// profile has as many thresholds as there are coalitions.
#[derive(Drop)]
pub struct Model {
    profiles: ListOf<Profile>,
    coalitions: ListOf<Coalitions>,
}

impl marker::Model for Model {
    ghost use Rattle.model_core.specs.Model.{ModelValue, IsModel};

    ghost Value = { ModelValue };

    ghost view = { λ m. record { profiles = m.profiles; coalitions = m.coalitions } };

    ghost invariant = { λ m. IsModel m.profiles m.coalitions };
}

impl Model {
    ghost use Rattle.model_core.specs.Model.{threshold_in, Belongs};

    /// The model of these profiles and coalitions, which belong to the problem. Takes no memory.
    pub fn new(problem: &Problem, profiles: Vec<Profile>, coalitions: Vec<Coalitions>) -> Model
        requires { Belongs problem.now (record { profiles = profiles.items; coalitions = coalitions.items }) }
        ensures { result ≡ record { profiles = profiles.items; coalitions = coalitions.items } }
    {
        let _criteria = problem.criteria_count();
        let _categories = problem.categories_count();
        Model {
            profiles: ListOf::from_vec(profiles),
            coalitions: ListOf::from_vec(coalitions),
        }
    }

    /// All profiles, in the order of the criteria.
    pub fn profiles(&self) -> &[Profile]
        ensures { result.now ≡ self.now.profiles }
    {
        self.profiles.as_slice()
    }

    /// The profile of criterion `i`, from 0.
    pub fn profile(&self, i: u32) -> &Profile
        requires { i < length self.now.profiles }
        ensures profile { slice_get self.now.profiles i ≡ Some result.now }
        ensures thresholds { length result.now.thresholds ≡ length self.now.coalitions }
    {
        self.profiles.get(i)
    }

    /// The threshold of criterion `i`, from 0, at boundary `h`, from 1. `None` exactly when it is null.
    pub fn threshold(&self, i: u32, h: u32) -> Option<Grade>
        requires criterion { i < length self.now.profiles }
        requires first { 1 ≤ h }
        requires last { h ≤ length self.now.coalitions }
        ensures { threshold_in self.now i (h - 1) ≡ Some result }
    {
        *self.profile(i).thresholds.get(h - 1)
    }

    /// The coalitions at a place of the boundaries, from 0.
    pub(crate) fn coalitions_at(&self, place: u32) -> &Coalitions
        requires { place < length self.now.coalitions }
        ensures { slice_get self.now.coalitions place ≡ Some result.now }
    {
        self.coalitions.get(place)
    }

    /// The coalitions of all boundaries, boundary 1 first.
    pub fn all_coalitions(&self) -> &[Coalitions]
        ensures { result.now ≡ self.now.coalitions }
    {
        self.coalitions.as_slice()
    }

    /// The coalitions of boundary `h`, from 1.
    pub fn coalitions(&self, h: u32) -> &Coalitions
        requires first { 1 ≤ h }
        requires last { h ≤ length self.now.coalitions }
        ensures { slice_get self.now.coalitions (h - 1) ≡ Some result.now }
    {
        self.coalitions_at(h - 1)
    }
}
