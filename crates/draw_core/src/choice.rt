//! The grades of a scale that can be drawn.
ghost use Rattle.std.specs.Prelude.{◌≡◌, ◌<◌, ◌≤◌, ◌^◌, ◌*◌, ◌/◌, true, length, IsTrue, if◌then◌else◌};
ghost use Rattle.std.specs.Prelude.{◌≤ℤ◌, ◌+ℤ◌, pos, neg_ℤ, unsigned_abs};
ghost use Rattle.problem_core.specs.Criterion.{are_bounds, is_scale};
ghost use Rattle.problem_core.specs.Grade.{IsGrade};
ghost use Rattle.problem_core.specs.Problem.{IsProblem};
ghost use Rattle.problem_core.specs.declared.criterion.Scale.TheVariants.{Rising, Falling};
ghost use Rattle.draw_core.specs.Choice.{choice_count, chosen, scale_at};

use fixed_core::Fixed;
use problem_core::{Bounds, Grade, Problem, Scale};

/// The units of 10^-18 in one.
const UNITS_PER_ONE: u128 = 1_000_000_000_000_000_000;

/// The number of so many units.
pub fn number_of(units: i128) -> Fixed
    requires { unsigned_abs units ≤ 1000000000000000000000000000000000000 }
    ensures number { result ≡ units }
    ensures few { unsigned_abs result ≤ 1000000000000000000000000000000000000 }
{
    match Fixed::of(units) {
        Some(number) => number,
        None => unreachable!(),
    }
}

/// The units from a number of a scale to the next one.
fn gap_of(whole: bool) -> u128
    ensures gap { result ≡ if whole then 10 ^ 18 else 1 }
    ensures some { 1 ≤ result }
    ensures few { result ≤ 1000000000000000000 }
{
    if whole { UNITS_PER_ONE } else { 1 }
}

/// The units from the least number to the greatest.
fn range_of(least: Fixed, most: Fixed) -> u128
    requires { least ≤ℤ most }
    ensures range { result ≡ unsigned_abs (most +ℤ neg_ℤ least) }
    ensures reaches { least +ℤ pos result ≡ most }
    ensures bound { result ≤ 2000000000000000000000000000000000000 }
{
    (most.units() - least.units()).unsigned_abs()
}

/// So many thousandths of a range, rounded down to whole gaps. Gaps times thousandths can pass 128 bits, so the
/// thousands of the gaps and the rest are taken apart.
fn part_of(range: u128, gap: u128, thousandths: u32) -> u128
    requires some { 1 ≤ gap }
    requires few { gap ≤ 1000000000000000000 }
    requires bound { range ≤ 2000000000000000000000000000000000000 }
    requires step { thousandths ≤ 1000 }
    ensures part { result ≡ gap * (range / gap * thousandths / 1000) }
    ensures within { result ≤ range }
{
    let gaps = range / gap;
    let c = u128::from(thousandths);
    gap * (gaps / 1000 * c + gaps % 1000 * c / 1000)
}

/// The number of a choice on a rising scale.
fn rising_step(bounds: Bounds, choice: u32) -> Fixed
    requires bounds { are_bounds bounds ≡ true }
    requires step { choice ≤ 1000 }
    ensures step { result ≡ chosen (Rising bounds) choice }
    ensures grade { IsGrade (Rising bounds) result }
{
    let Bounds { least, most, whole } = bounds;
    let part = part_of(range_of(least, most), gap_of(whole), choice);
    number_of(least.units() + part as i128)
}

/// The number of a choice on a falling scale.
fn falling_step(bounds: Bounds, choice: u32) -> Fixed
    requires bounds { are_bounds bounds ≡ true }
    requires step { choice ≤ 1000 }
    ensures step { result ≡ chosen (Falling bounds) choice }
    ensures grade { IsGrade (Falling bounds) result }
{
    let Bounds { least, most, whole } = bounds;
    let part = part_of(range_of(least, most), gap_of(whole), choice);
    number_of(most.units() - part as i128)
}

/// The number of choices of a scale.
pub fn choice_count(scale: &Scale) -> u32
    requires { IsTrue (is_scale scale.now) }
    ensures count { result ≡ choice_count scale.now }
    ensures some { 0 < result }
    ensures few { result ≤ 1001 }
{
    match scale {
        Scale::Rising(_) | Scale::Falling(_) => 1001,
        Scale::Named(names) => names.len(),
    }
}

/// The grade of a choice.
pub fn chosen(scale: &Scale, choice: u32) -> Grade
    requires scale { IsTrue (is_scale scale.now) }
    requires choice { choice < choice_count scale.now }
    ensures chosen { result ≡ chosen scale.now choice }
    ensures grade { IsGrade scale.now result }
{
    match scale {
        Scale::Rising(bounds) => Grade::number(rising_step(*bounds, choice)),
        Scale::Falling(bounds) => Grade::number(falling_step(*bounds, choice)),
        Scale::Named(names) => {
            let _count = names.len();
            Grade::place(choice)
        }
    }
}

/// The scale of the criterion at place `i`, from 0.
pub fn scale_at(problem: &Problem, i: u32) -> &Scale
    requires place { i < length problem.now.criteria }
    ensures scale { result.now ≡ scale_at problem.now.criteria i }
    ensures good { IsTrue (is_scale result.now) }
{
    let _count = problem.criteria_count();
    &problem.criterion(i).scale
}
