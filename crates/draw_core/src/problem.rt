//! Drawn problems.
ghost use Rattle.std.specs.Prelude.{◌≡◌, ◌+◌, ◌≤◌, ◌<◌, true, IfOk, string_bytes, codes, length};
ghost use Rattle.problem_core.specs.Problem.{IsProblem};
ghost use Rattle.encoding_rules.specs.Each.{listed};
ghost use Rattle.draw_core.specs.Words.{seeded, words_of};
ghost use Rattle.draw_core.specs.DrawnProblem.{drawn_category, drawn_criterion, drawn_problem, drawn_scale, numbered};
ghost use Rattle.draw_core.specs.DrawnProblem.{zero_to_hundred, zero_to_one};
ghost use Rattle.draw_core.specs.NewNames.{are_new};

use crate::choice::number_of;
use crate::words::draw_words;
use itoa::Buffer;
use problem_core::{Bounds, Criteria, Criterion, Names, Problem, Scale, Text};
use std::alloc::{AllocError, Global};

/// A text that ends with a number.
fn numbered(alloc: Global, text: &str, number: u32) -> Result<String, AllocError>
    ensures { IfOk result (λ name. string_bytes name ≡ numbered text.now number) }
{
    let mut name = String::from_str(alloc, text)?;
    let mut buffer = Buffer::new();
    name.push_str(buffer.format(number))?;
    Ok(name)
}

/// Names of one text with the numbers from `first` on.
fn numbered_names(alloc: Global, text: &str, first: u32, count: u32) -> Result<Names, AllocError>
    requires few { first + count ≤ 100 }
    requires differ { are_new (λ k. numbered text.now (k + first)) count ≡ true }
    ensures { IfOk result (λ names. names ≡ listed (λ k. numbered text.now (k + first)) count) }
{
    let mut names = Names::new(alloc);
    for k in 0..count {
        let name = numbered(alloc, text, k + first)?;
        names.push(name.as_str())?;
    }
    Ok(names)
}

/// The names of a drawn scale.
fn value_names(alloc: Global) -> Result<Names, AllocError>
    ensures { IfOk result (λ names. names ≡ listed (λ k. numbered (codes "v") (k + 0)) 5) }
{
    numbered_names(alloc, "v", 0, 5)
}

/// The names of so many categories.
fn category_names(alloc: Global, count: u32) -> Result<Names, AllocError>
    requires { count ≤ 10 }
    ensures { IfOk result (λ names. names ≡ listed drawn_category count) }
{
    numbered_names(alloc, "Category ", 1, count)
}

/// All numbers from 0 to 1.
fn zero_to_one() -> Bounds
    ensures { result ≡ zero_to_one }
{
    Bounds {
        least: number_of(0),
        most: number_of(1_000_000_000_000_000_000),
        whole: false,
    }
}

/// Whole numbers from 0 to 100.
fn zero_to_hundred() -> Bounds
    ensures { result ≡ zero_to_hundred }
{
    Bounds {
        least: number_of(0),
        most: number_of(100_000_000_000_000_000_000),
        whole: true,
    }
}

/// One of four scales.
fn drawn_scale(alloc: Global, kind: u32) -> Result<Scale, AllocError>
    ensures { IfOk result (λ scale. scale ≡ drawn_scale kind) }
{
    if kind == 0 {
        Ok(Scale::Rising(zero_to_one()))
    } else if kind == 1 {
        Ok(Scale::Falling(zero_to_one()))
    } else if kind == 2 {
        Ok(Scale::Rising(zero_to_hundred()))
    } else {
        Ok(Scale::Named(value_names(alloc)?))
    }
}

/// The criterion at place `i`, from 0, whose word says its scale.
fn drawn_criterion(alloc: Global, words: &[u32], i: u32) -> Result<Criterion, AllocError>
    requires word { i < length words.now }
    requires few { i < 16 }
    ensures { IfOk result (λ criterion. criterion ≡ drawn_criterion words.now i) }
{
    let name = numbered(alloc, "Criterion ", i + 1)?;
    let name = Text::of(alloc, name.as_str())?;
    let scale = drawn_scale(alloc, words[i as usize] % 4)?;
    Ok(Criterion { name, scale })
}

/// The criteria of the first words.
fn drawn_criteria(alloc: Global, words: &[u32], count: u32) -> Result<Criteria, AllocError>
    requires words { count ≤ length words.now }
    requires few { count ≤ 16 }
    ensures { IfOk result (λ criteria. criteria ≡ listed (drawn_criterion words.now) count) }
{
    let mut criteria = Criteria::new(alloc);
    for i in 0..count {
        criteria.push(drawn_criterion(alloc, words, i)?)?;
    }
    Ok(criteria)
}

/// The problem that a seed draws, with 1 to 16 criteria and 2 to 10 categories. Equal seeds draw equal problems.
pub fn draw_problem(
    alloc: Global,
    criteria: u32,
    categories: u32,
    seed: u64,
) -> Result<Problem, AllocError>
    requires some_criteria { 1 ≤ criteria }
    requires few_criteria { criteria ≤ 16 }
    requires some_categories { 2 ≤ categories }
    requires few_categories { categories ≤ 10 }
    ensures drawn { IfOk result (λ problem.
        problem ≡ drawn_problem criteria categories (words_of (seeded seed) criteria)) }
    ensures facts { IfOk result (λ problem. IsProblem problem) }
{
    let words = draw_words(alloc, seed, criteria)?;
    let scales = drawn_criteria(alloc, words.as_slice(), criteria)?;
    let names = category_names(alloc, categories)?;
    Ok(Problem::new(scales, names))
}
