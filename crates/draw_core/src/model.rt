//! Drawn models.
ghost use Rattle.std.specs.Prelude.{◌≡◌, ◌≤◌, ◌<◌, ◌^◌, Some, map, replicate, All, IfOk, IsTrue, OnOk, length};
ghost use Rattle.std.specs.List.{AllZip};
ghost use Rattle.problem_core.specs.Criterion.{is_scale};
ghost use Rattle.problem_core.specs.Problem.{IsProblem};
ghost use Rattle.model_core.specs.Model.{boundaries_of, Belongs, IsThreshold};
ghost use Rattle.model_core.specs.declared.model.Coalitions.TheVariants.{Weights};
ghost use Rattle.encoding_rules.specs.Each.{listed};
ghost use Rattle.draw_core.specs.Choice.{choice_count, chosen, scale_at};
ghost use Rattle.draw_core.specs.Words.{seeded, words_of};
ghost use Rattle.draw_core.specs.DrawnModel.{drawn_choices, drawn_limit, drawn_model, drawn_profile, drawn_share};
ghost use Rattle.draw_core.specs.DrawnModel.{drawn_weights, model_words, put_in, weight_units};

use crate::choice::{choice_count, chosen, number_of, scale_at};
use crate::words::draw_words;
use model_core::{Coalitions, Fixeds, Grades, Model, Profile};
use problem_core::{Problem, Scale};
use std::alloc::{AllocError, Global};

/// The units of 10^-18 in one.
const UNITS_PER_ONE: u128 = 1_000_000_000_000_000_000;

/// Puts a number among rising ones, at the first place where it is in order.
fn put_in(number: u32, rising: &mut Vec<u32>) -> Result<(), AllocError>
    ensures ok { OnOk result (rising.new.items ≡ put_in number rising.old.items) }
{
    let mut place = 0;
    while place < rising.len() && rising[place] < number {
        place += 1;
    }
    rising.insert(place, number)?;
    Ok(())
}

/// The choices of the criterion at place `i`, in rising order: one for each boundary.
fn drawn_choices(
    alloc: Global,
    problem: &Problem,
    words: &[u32],
    i: u32,
) -> Result<Vec<u32>, AllocError>
    requires words { length words.now ≡ model_words problem.now }
    requires place { i < length problem.now.criteria }
    ensures choices { IfOk result (λ choices. choices.items ≡ drawn_choices problem.now words.now i) }
    ensures below { IfOk result (λ choices.
        All (λ c. c < choice_count (scale_at problem.now.criteria i)) choices.items) }
    ensures count { IfOk result (λ choices. length choices.items ≡ boundaries_of problem.now) }
{
    let boundaries = problem.categories_count() - 1;
    let _criteria = problem.criteria_count();
    let count = choice_count(scale_at(problem, i));
    let mut choices = Vec::new(alloc);
    for h in 0..boundaries {
        put_in(words[(i * boundaries + h) as usize] % count, &mut choices)?;
    }
    Ok(choices)
}

/// The grades of choices, as thresholds.
fn thresholds_of(alloc: Global, scale: &Scale, choices: &[u32]) -> Result<Grades, AllocError>
    requires scale { IsTrue (is_scale scale.now) }
    requires choices { All (λ c. c < choice_count scale.now) choices.now }
    requires few { length choices.now ≤ 9 }
    ensures thresholds { IfOk result (λ row. row ≡ map (λ c. Some (chosen scale.now c)) choices.now) }
    ensures grades { IfOk result (λ row. All (IsThreshold scale.now) row) }
{
    let mut row = Grades::new(alloc);
    for choice in choices {
        row.push(Some(chosen(scale, *choice)))?;
    }
    Ok(row)
}

/// The thresholds of the criterion at place `i`.
fn drawn_profile(
    alloc: Global,
    problem: &Problem,
    words: &[u32],
    i: u32,
) -> Result<Profile, AllocError>
    requires words { length words.now ≡ model_words problem.now }
    requires place { i < length problem.now.criteria }
    ensures profile { IfOk result (λ profile. profile ≡ drawn_profile problem.now words.now i) }
    ensures grades { IfOk result (λ profile. All (IsThreshold (scale_at problem.now.criteria i)) profile.thresholds) }
{
    let _categories = problem.categories_count();
    let choices = drawn_choices(alloc, problem, words, i)?;
    let thresholds = thresholds_of(alloc, scale_at(problem, i), choices.as_slice())?;
    Ok(Profile { thresholds })
}

/// The thresholds of all criteria.
fn drawn_profiles(
    alloc: Global,
    problem: &Problem,
    words: &[u32],
) -> Result<Vec<Profile>, AllocError>
    requires words { length words.now ≡ model_words problem.now }
    ensures profiles { IfOk result (λ profiles.
        profiles.items ≡ listed (drawn_profile problem.now words.now) (length problem.now.criteria)) }
    ensures grades { IfOk result (λ profiles.
        AllZip (λ criterion p. All (IsThreshold criterion.scale) p.thresholds) problem.now.criteria profiles.items) }
{
    let mut profiles = Vec::new(alloc);
    for i in 0..problem.criteria_count() {
        let profile = drawn_profile(alloc, problem, words, i)?;
        profiles.push(profile)?;
    }
    Ok(profiles)
}

/// The share of the criterion at place `i`.
fn drawn_share(problem: &Problem, words: &[u32], i: u32) -> u32
    requires words { length words.now ≡ model_words problem.now }
    requires place { i < length problem.now.criteria }
    ensures share { result ≡ drawn_share problem.now words.now i }
    ensures some { 1 ≤ result }
    ensures few { result ≤ 1000 }
{
    let boundaries = problem.categories_count() - 1;
    let place = problem.criteria_count() * boundaries + i;
    1 + words[place as usize] % 1000
}

/// The sum of shares that is enough.
fn drawn_limit(problem: &Problem, words: &[u32]) -> u32
    requires words { length words.now ≡ model_words problem.now }
    ensures limit { result ≡ drawn_limit problem.now words.now }
    ensures some { 1 ≤ result }
{
    let boundaries = problem.categories_count() - 1;
    let n = problem.criteria_count();
    let mut shares = 0;
    for i in 0..n {
        shares += drawn_share(problem, words, i);
    }
    1 + words[(n * boundaries + n) as usize] % shares
}

/// A share by the limit, rounded up to a whole number of units.
fn weight_units(share: u32, limit: u32) -> u128
    requires share { share ≤ 1000 }
    requires limit { 1 ≤ limit }
    ensures units { result ≡ weight_units share limit }
    ensures few { result ≤ 10 ^ 36 }
{
    let limit = u128::from(limit);
    (u128::from(share) * UNITS_PER_ONE + (limit - 1)) / limit
}

/// The weights of all criteria.
fn drawn_weights(alloc: Global, problem: &Problem, words: &[u32]) -> Result<Fixeds, AllocError>
    requires words { length words.now ≡ model_words problem.now }
    ensures { IfOk result (λ weights. weights ≡ drawn_weights problem.now words.now) }
{
    let limit = drawn_limit(problem, words);
    let mut weights = Fixeds::new(alloc);
    for i in 0..problem.criteria_count() {
        let units = weight_units(drawn_share(problem, words, i), limit);
        weights.push(number_of(units as i128))?;
    }
    Ok(weights)
}

/// The same weights at each boundary.
fn drawn_coalitions(
    alloc: Global,
    problem: &Problem,
    words: &[u32],
) -> Result<Vec<Coalitions>, AllocError>
    requires words { length words.now ≡ model_words problem.now }
    ensures { IfOk result (λ coalitions.
        coalitions.items ≡ replicate (boundaries_of problem.now) (Weights (drawn_weights problem.now words.now))) }
{
    let mut coalitions = Vec::new(alloc);
    for _ in 0..problem.categories_count() - 1 {
        let weights = drawn_weights(alloc, problem, words)?;
        coalitions.push(Coalitions::Weights(weights))?;
    }
    Ok(coalitions)
}

/// The model that a seed draws for a problem: on each criterion thresholds in order, and the same weights at each
/// boundary. Equal seeds draw equal models.
pub fn draw_model(alloc: Global, problem: &Problem, seed: u64) -> Result<Model, AllocError>
    ensures drawn { IfOk result (λ m. m ≡ drawn_model problem.now (words_of (seeded seed) (model_words problem.now))) }
    ensures belongs { IfOk result (λ m. Belongs problem.now m) }
{
    let n = problem.criteria_count();
    let boundaries = problem.categories_count() - 1;
    let words = draw_words(alloc, seed, n * boundaries + n + 1)?;
    let profiles = drawn_profiles(alloc, problem, words.as_slice())?;
    let coalitions = drawn_coalitions(alloc, problem, words.as_slice())?;
    Ok(Model::new(problem, profiles, coalitions))
}
