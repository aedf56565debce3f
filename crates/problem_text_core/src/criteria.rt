//! Writing criteria and categories.
ghost use Rattle.std.specs.Prelude.{◌≡◌, All, OnOk};
ghost use Rattle.std.specs.Str.{IsUtf8};
ghost use Rattle.lists_core.specs.Puts.{Puts};
ghost use Rattle.problem_core.specs.Problem.{IsProblem};
ghost use Rattle.problem_text_core.specs.Parts.{categories_text, criteria_text, criterion_text, name_row};
ghost use Rattle.problem_text_core.specs.ProblemText.{AreNames, IsKeptCriterion};

use crate::put::put_quoted_line;
use crate::scale::put_scale;
use problem_core::{Criterion, Problem};
use std::alloc::AllocError;

/// Appends the line that begins a criterion or a category.
fn put_name_line(name: &str, out: &mut Vec<u8>) -> Result<(), AllocError>
    ensures text { Puts out.old.items out.new.items result (name_row name.now) }
    ensures utf8 { IsUtf8 name.now }
{
    put_quoted_line("  - name: ", name, out)
}

/// Appends the lines of a criterion.
fn put_criterion(criterion: &Criterion, out: &mut Vec<u8>) -> Result<(), AllocError>
    ensures text { Puts out.old.items out.new.items result (criterion_text criterion.now) }
    ensures kept { OnOk result (IsKeptCriterion criterion.now) }
{
    put_name_line(criterion.name.as_str(), out)?;
    put_scale(&criterion.scale, out)
}

/// Appends the lines of each criterion.
pub fn put_criteria(problem: &Problem, out: &mut Vec<u8>) -> Result<(), AllocError>
    ensures text { Puts out.old.items out.new.items result (criteria_text problem.now.criteria) }
    ensures kept { OnOk result (All IsKeptCriterion problem.now.criteria) }
    ensures facts { IsProblem problem.now }
{
    for i in 0..problem.criteria_count() {
        put_criterion(problem.criterion(i), out)?;
    }
    Ok(())
}

/// Appends the line of each category.
pub fn put_categories(problem: &Problem, out: &mut Vec<u8>) -> Result<(), AllocError>
    ensures text { Puts out.old.items out.new.items result (categories_text problem.now.categories) }
    ensures kept { OnOk result (AreNames problem.now.categories) }
{
    for j in 0..problem.categories_count() {
        put_name_line(problem.category(j), out)?;
    }
    Ok(())
}
