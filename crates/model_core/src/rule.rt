//! The category that a model gives.
ghost use Rattle.std.specs.Prelude.{◌≡◌, ◌-◌, ◌<◌, ◌≤◌, ◌^◌, ◌%◌, ◌==◌, false, length, All, pos, int_lt, unsigned_abs};
ghost use Rattle.std.specs.Prelude.{if◌then◌else◌};
ghost use Rattle.std.specs.List.{list_any};
ghost use Rattle.problem_core.specs.Grade.{direction_of};
ghost use Rattle.sorting_rule.specs.Preference.{accepts};
ghost use Rattle.sorting_rule.specs.Coalition.{is_inside, is_sufficient, weight_of, weights};
ghost use Rattle.sorting_rule.specs.Model.{accepted_set, category};
ghost use Rattle.model_core.specs.Model.{boundaries_of, profiles_of, rule_of, sufficient_by, AreSummable, Belongs};

use crate::model::{Coalitions, Model};
use fixed_core::Fixed;
use problem_core::{Grade, Problem, Scale, as_good};

/// The units of the weight that suffices.
const ONE: u128 = 1_000_000_000_000_000_000;

/// Whether a threshold accepts a grade.
fn accepts(scale: &Scale, threshold: Option<Grade>, x: Grade) -> bool
    ensures { result ≡ accepts (direction_of scale.now) threshold x }
{
    match threshold {
        None => false,
        Some(t) => as_good(scale, x, t),
    }
}

/// The set of the criteria that accept their grade at the boundary at a place, from 0.
fn accepted_at(problem: &Problem, model: &Model, place: u32, grades: &[Grade]) -> u32
    requires belongs { Belongs problem.now model.now }
    requires place { place < boundaries_of problem.now }
    requires grades { length grades.now ≡ length problem.now.criteria }
    ensures { result ≡ accepted_set (profiles_of problem.now.criteria model.now.profiles) place grades.now }
{
    let mut set = 0;
    for i in (0..problem.criteria_count()).rev() {
        let threshold = model.profile(i).thresholds.get(place);
        let accepts = accepts(&problem.criterion(i).scale, *threshold, grades[i as usize]);
        set = 2 * set + u32::from(accepts);
    }
    set
}

/// The set of the criteria that accept their grade at boundary `h`, from 1, as a mask. Takes no memory.
pub fn accepted(problem: &Problem, model: &Model, h: u32, grades: &[Grade]) -> u32
    requires belongs { Belongs problem.now model.now }
    requires first { 1 ≤ h }
    requires last { h < length problem.now.categories }
    requires grades { length grades.now ≡ length problem.now.criteria }
    ensures { result ≡ accepted_set (rule_of problem.now model.now).profiles (h - 1) grades.now }
{
    accepted_at(problem, model, h - 1, grades)
}

/// The units of a number that is not negative.
fn magnitude(number: Fixed) -> u128
    requires { int_lt number (pos 0) ≡ false }
    ensures value { result ≡ unsigned_abs number }
    ensures bound { result ≤ 10 ^ 36 }
{
    number.units() as u128
}

/// What the first criterion of a set adds to the set's weight. A product costs less than a branch that no processor
/// can foresee.
fn counted(weight: Fixed, set: u32) -> u128
    requires { int_lt weight (pos 0) ≡ false }
    ensures value { result ≡ (if set % 2 == 1 then unsigned_abs weight else 0) }
    ensures bound { result ≤ 10 ^ 36 }
{
    magnitude(weight) * u128::from(set % 2)
}

/// The weight of a set, in units of 10^-18.
fn weight_of(weights: &[Fixed], set: u32) -> u128
    requires few { length weights.now ≤ 16 }
    requires good { All (λ w. int_lt w (pos 0) ≡ false) weights.now }
    ensures { pos result ≡ weight_of weights.now set }
{
    let mut total = 0;
    let mut rest = set;
    for weight in weights {
        total += counted(*weight, rest);
        rest /= 2;
    }
    total
}

/// Whether the weights of a set's criteria sum to at least 1.
fn is_heavy(units: &[Fixed], set: u32) -> bool
    requires few { length units.now ≤ 16 }
    requires good { All (λ w. int_lt w (pos 0) ≡ false) units.now }
    ensures { result ≡ is_sufficient (weights units.now) set }
{
    weight_of(units, set) >= ONE
}

/// Whether a set contains one of the roots.
pub(crate) fn contains_root(set: u32, roots: &[u32]) -> bool
    ensures { result ≡ list_any (λ root. is_inside root set) roots.now }
{
    roots.iter().any(|root| *root & set == *root)
}

/// Whether a set of criteria, as a mask, is sufficient. Takes no memory.
pub fn sufficient(coalitions: &Coalitions, mask: u32) -> bool
    requires { AreSummable coalitions.now }
    ensures { result ≡ is_sufficient (sufficient_by coalitions.now) mask }
{
    match coalitions {
        Coalitions::Weights(weights) => is_heavy(weights.as_slice(), mask),
        Coalitions::Roots(roots) => contains_root(mask, roots.as_slice()),
    }
}

/// The category that a model of the problem gives the grades: the greatest boundary that they reach, or 0 if they
/// reach none (Bouyssou and Marchant 2007). Takes no memory.
pub fn sort(problem: &Problem, model: &Model, grades: &[Grade]) -> u32
    requires belongs { Belongs problem.now model.now }
    requires grades { length grades.now ≡ length problem.now.criteria }
    ensures category { result ≡ category (rule_of problem.now model.now) grades.now }
    ensures bound { result < length problem.now.categories }
{
    let boundaries = problem.categories_count() - 1;
    let _criteria = problem.criteria_count();
    for place in (0..boundaries).rev() {
        let set = accepted_at(problem, model, place, grades);
        if sufficient(model.coalitions_at(place), set) {
            return place + 1;
        }
    }
    0
}
