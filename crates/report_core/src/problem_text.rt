//! The description of a problem.
ghost use Rattle.std.specs.Prelude.{◌≡◌, ◌++◌, codes, map};
ghost use Rattle.lists_core.specs.Puts.{Puts};
ghost use Rattle.yaml_tokens.specs.Written.{quoted_text};
ghost use Rattle.report_core.specs.Described.{category_line, criterion_line, numbers_text, problem_description};
ghost use Rattle.report_core.specs.Described.{scale_text, type_word};
ghost use Rattle.report_core.specs.Text.{item_text, line_end, listed, numbered};

use crate::text::put_counted;
use fixed_core::put_fixed;
use problem_core::{Bounds, Criterion, Names, Problem, Scale};
use std::alloc::AllocError;
use written_core::{put_comma, put_text};
use yaml_core::put_quoted;

/// The word for the type of a scale of numbers.
fn type_word(whole: bool) -> &'static str
    ensures { result.now ≡ type_word whole }
{
    if whole { "integer" } else { "real" }
}

/// Appends the scale of numbers with these bounds, its direction between its type and the bounds.
fn put_numbers(direction: &str, bounds: Bounds, out: &mut Vec<u8>) -> Result<(), AllocError>
    ensures { Puts out.old.items out.new.items result (numbers_text direction.now bounds) }
{
    put_text(type_word(bounds.whole), out)?;
    put_text(direction, out)?;
    put_fixed(bounds.least, out)?;
    put_text(" to ", out)?;
    put_fixed(bounds.most, out)
}

/// Appends the name at a place of a list.
fn put_name(place: u32, name: &str, out: &mut Vec<u8>) -> Result<(), AllocError>
    ensures { Puts out.old.items out.new.items result (item_text place (quoted_text name.now)) }
{
    put_comma(place as usize, out)?;
    put_quoted(name, out)
}

/// Appends names in double quotes, a comma and a space between them.
fn put_names(names: &Names, out: &mut Vec<u8>) -> Result<(), AllocError>
    ensures { Puts out.old.items out.new.items result (numbered item_text 0 (map quoted_text names.now)) }
{
    for place in 0..names.len() {
        put_name(place, names.get(place), out)?;
    }
    Ok(())
}

/// Appends a scale of names.
fn put_enumerated(names: &Names, out: &mut Vec<u8>) -> Result<(), AllocError>
    ensures { Puts out.old.items out.new.items result (codes "enumerated, " ++ listed (map quoted_text names.now)) }
{
    put_text("enumerated, [", out)?;
    put_names(names, out)?;
    put_text("]", out)
}

/// Appends a scale.
fn put_scale(scale: &Scale, out: &mut Vec<u8>) -> Result<(), AllocError>
    ensures { Puts out.old.items out.new.items result (scale_text scale.now) }
{
    match scale {
        Scale::Rising(bounds) => put_numbers(", increasing, from ", *bounds, out),
        Scale::Falling(bounds) => put_numbers(", decreasing, from ", *bounds, out),
        Scale::Named(names) => put_enumerated(names, out),
    }
}

/// Appends the line of the criterion at a place.
fn put_criterion(place: u32, criterion: &Criterion, out: &mut Vec<u8>) -> Result<(), AllocError>
    ensures { Puts out.old.items out.new.items result (criterion_line place criterion.now) }
{
    put_counted("criterion ", place, ": ", out)?;
    put_quoted(criterion.name.as_str(), out)?;
    put_text(", ", out)?;
    put_scale(&criterion.scale, out)?;
    put_text("\n", out)
}

/// Appends a line for each criterion.
fn put_criteria(problem: &Problem, out: &mut Vec<u8>) -> Result<(), AllocError>
    ensures { Puts out.old.items out.new.items result (numbered criterion_line 0 problem.now.criteria) }
{
    for i in 0..problem.criteria_count() {
        put_criterion(i, problem.criterion(i), out)?;
    }
    Ok(())
}

/// Appends the line of the category at a place.
fn put_category(place: u32, name: &str, out: &mut Vec<u8>) -> Result<(), AllocError>
    ensures { Puts out.old.items out.new.items result (category_line place name.now) }
{
    put_counted("category ", place, ": ", out)?;
    put_quoted(name, out)?;
    put_text("\n", out)
}

/// Appends a line for each category.
fn put_categories(problem: &Problem, out: &mut Vec<u8>) -> Result<(), AllocError>
    ensures { Puts out.old.items out.new.items result (numbered category_line 0 problem.now.categories) }
{
    for j in 0..problem.categories_count() {
        put_category(j, problem.category(j), out)?;
    }
    Ok(())
}

/// Appends the description of a problem: a line with the numbers of criteria and categories, a line for each criterion
/// with its scale, and a line for each category, the worst first. Out of memory leaves a prefix of it.
pub fn describe_problem(problem: &Problem, out: &mut Vec<u8>) -> Result<(), AllocError>
    ensures { Puts out.old.items out.new.items result (problem_description problem.now) }
{
    let criteria = problem.criteria_count();
    let categories = problem.categories_count();
    put_counted("problem: ", criteria, " criteria, ", out)?;
    put_counted("", categories, " categories\n", out)?;
    put_criteria(problem, out)?;
    put_categories(problem, out)
}
