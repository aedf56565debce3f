//! The ranked grades of one criterion.
ghost use Rattle.std.specs.Prelude.{◌≡◌, ◌<◌, ◌≤◌, length, map, not, false, All, AllPairs, IfOk};
ghost use Rattle.std.specs.Ordering.{is_lt};
ghost use Rattle.sorting_rule.specs.Preference.{is_as_good};
ghost use Rattle.sorting_rule.specs.Rebuilt.{grade_on};
ghost use Rattle.problem_core.specs.Grade.{direction_of};
ghost use Rattle.encoding_rules.specs.Ranks.{ranking, place_of};

use problem_core::{Grade, Scale, as_good};
use std::alloc::{AllocError, Global};
use std::cmp::Ordering;
use table_core::Examples;

/// How a grade compares with another in preference: less is worse.
fn preference(scale: &Scale, x: Grade, y: Grade) -> Ordering
    ensures { is_lt result ≡ not (is_as_good (direction_of scale.now) x y) }
{
    if !as_good(scale, x, y) {
        Ordering::Less
    } else if as_good(scale, y, x) {
        Ordering::Equal
    } else {
        Ordering::Greater
    }
}

/// The grades of the examples on a criterion, in the order of the examples.
fn column(alloc: Global, examples: &Examples, i: u32) -> Result<Vec<Grade>, AllocError>
    requires { All (λ e. i < length e.grades) examples.now }
    ensures grades { IfOk result
        (λ grades. grades.items ≡ map (grade_on i) examples.now) }
    ensures few { IfOk result (λ grades. length grades.items ≤ 4000000000) }
{
    let mut grades = Vec::new(alloc);
    for row in 0..examples.count() {
        grades.push(examples.grades(row)[i as usize])?;
    }
    Ok(grades)
}

/// Sorts grades by preference and keeps each once.
fn rank_grades(scale: &Scale, grades: &mut Vec<Grade>)
    ensures ranked { grades.new.items ≡ ranking (direction_of scale.now) grades.old.items }
    ensures fewer { length grades.new.items ≤ length grades.old.items }
{
    grades.sort_unstable_by(|x, y| preference(scale, *x, *y));
    grades.dedup();
}

/// The ranked grades of the examples on a criterion.
pub fn ranked_grades(
    alloc: Global,
    scale: &Scale,
    examples: &Examples,
    i: u32,
) -> Result<Vec<Grade>, AllocError>
    requires { All (λ e. i < length e.grades) examples.now }
    ensures grades { IfOk result (λ ranked. ranked.items
        ≡ ranking (direction_of scale.now) (map (grade_on i) examples.now)) }
    ensures few { IfOk result (λ ranked. length ranked.items ≤ 4000000000) }
{
    let mut grades = column(alloc, examples, i)?;
    rank_grades(scale, &mut grades);
    Ok(grades)
}

/// The place of a grade among ranked ones, found by halving: that of the first that is as good.
fn place_of(scale: &Scale, ranked: &[Grade], grade: Grade) -> usize
    requires { AllPairs (λ x y. is_as_good (direction_of scale.now) x y ≡ false) ranked.now }
    ensures value { result ≡ place_of (direction_of scale.now) ranked.now grade }
    ensures bound { result ≤ length ranked.now }
{
    ranked.partition_point(|other| !as_good(scale, *other, grade))
}

/// For each example, the place of its grade on a criterion among the ranked ones.
pub fn places_of(
    alloc: Global,
    scale: &Scale,
    examples: &Examples,
    i: u32,
    ranked: &[Grade],
) -> Result<Vec<u32>, AllocError>
    requires wide { All (λ e. i < length e.grades) examples.now }
    requires rises { AllPairs (λ x y. is_as_good (direction_of scale.now) x y ≡ false) ranked.now }
    requires few { length ranked.now ≤ 4000000000 }
    ensures { IfOk result (λ places. places.items
        ≡ map (λ e. place_of (direction_of scale.now) ranked.now (grade_on i e)) examples.now) }
{
    let mut places = Vec::new(alloc);
    for row in 0..examples.count() {
        places.push(place_of(scale, ranked, examples.grades(row)[i as usize]) as u32)?;
    }
    Ok(places)
}
