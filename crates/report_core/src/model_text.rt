//! The description of a model.
ghost use Rattle.std.specs.Prelude.{◌≡◌, ◌+◌, ◌≤◌, ◌++◌, All, codes, length, map};
ghost use Rattle.lists_core.specs.Puts.{Puts};
ghost use Rattle.model_core.specs.Model.{Belongs, IsThreshold};
ghost use Rattle.problem_core.specs.Grade.{IsGrade, quoted_grade_text};
ghost use Rattle.report_core.specs.DescribedModel.{accepted_lines, boundary_line, boundary_line_at, bound_text};
ghost use Rattle.report_core.specs.DescribedModel.{bound_word, coalitions_text, model_description, places_text};
ghost use Rattle.report_core.specs.DescribedModel.{roots_text, threshold_line, threshold_line_at, threshold_text};
ghost use Rattle.report_core.specs.DescribedModel.{weights_text};
ghost use Rattle.report_core.specs.Text.{item_text, numbered};

use crate::text::put_counted;
use model_core::{Coalitions, Fixeds, Masks, Model, Profile};
use model_text_core::{put_places, put_weights};
use problem_core::{Criterion, Grade, Problem, Scale, put_quoted_grade};
use std::alloc::AllocError;
use written_core::{put_comma, put_text};

/// The words before a threshold: it is the greatest accepted grade on a falling scale, and the least on any other.
fn bound_word(scale: &Scale) -> &'static str
    ensures { result.now ≡ bound_word scale.now }
{
    match scale {
        Scale::Falling(_) => "at most ",
        Scale::Rising(_) | Scale::Named(_) => "at least ",
    }
}

/// Appends which grades a threshold accepts.
fn put_bound(criterion: &Criterion, grade: Grade, out: &mut Vec<u8>) -> Result<(), AllocError>
    requires { IsGrade criterion.now.scale grade }
    ensures { Puts out.old.items out.new.items result (bound_text criterion.now.scale grade) }
{
    put_text(bound_word(&criterion.scale), out)?;
    put_quoted_grade(criterion, grade, out)
}

/// Appends which grades are accepted: none at a null threshold.
fn put_accepts(
    criterion: &Criterion,
    threshold: Option<Grade>,
    out: &mut Vec<u8>,
) -> Result<(), AllocError>
    requires { IsThreshold criterion.now.scale threshold }
    ensures { Puts out.old.items out.new.items result (threshold_text criterion.now.scale threshold) }
{
    match threshold {
        None => put_text("nothing", out),
        Some(grade) => put_bound(criterion, grade, out),
    }
}

/// Appends the line of criterion `i`, from 0, at boundary `h`, from 1.
fn put_threshold(
    i: u32,
    h: u32,
    criterion: &Criterion,
    threshold: Option<Grade>,
    out: &mut Vec<u8>,
) -> Result<(), AllocError>
    requires { IsThreshold criterion.now.scale threshold }
    ensures { Puts out.old.items out.new.items result (threshold_line i criterion.now.scale h threshold) }
{
    put_counted("criterion ", i, " boundary ", out)?;
    put_counted("", h, ": ", out)?;
    put_accepts(criterion, threshold, out)?;
    put_text("\n", out)
}

/// Appends the lines of criterion `i`, one for each boundary.
fn put_thresholds(
    i: u32,
    criterion: &Criterion,
    profile: &Profile,
    out: &mut Vec<u8>,
) -> Result<(), AllocError>
    requires { All (IsThreshold criterion.now.scale) profile.now.thresholds }
    ensures { Puts out.old.items out.new.items result
        (numbered (threshold_line_at i criterion.now.scale) 0 profile.now.thresholds) }
{
    for place in 0..profile.thresholds.len() {
        put_threshold(i, place + 1, criterion, *profile.thresholds.get(place), out)?;
    }
    Ok(())
}

/// Appends the lines of all criteria.
fn put_accepted(problem: &Problem, model: &Model, out: &mut Vec<u8>) -> Result<(), AllocError>
    requires { Belongs problem.now model.now }
    ensures { Puts out.old.items out.new.items result (accepted_lines 0 problem.now.criteria model.now.profiles) }
{
    for i in 0..problem.criteria_count() {
        put_thresholds(i, problem.criterion(i), model.profile(i), out)?;
    }
    Ok(())
}

/// Appends weights.
fn put_weights_text(weights: &Fixeds, out: &mut Vec<u8>) -> Result<(), AllocError>
    ensures { Puts out.old.items out.new.items result (weights_text weights.now) }
{
    put_text("weights ", out)?;
    put_weights(weights.as_slice(), out)
}

/// Appends the root at a place of a list.
fn put_root(place: u32, criteria: u32, root: u32, out: &mut Vec<u8>) -> Result<(), AllocError>
    requires { criteria ≤ 32 }
    ensures { Puts out.old.items out.new.items result (item_text place (places_text criteria root)) }
{
    put_comma(place as usize, out)?;
    put_places(criteria, root, out)
}

/// Appends roots, a comma and a space between them.
fn put_roots(criteria: u32, roots: &Masks, out: &mut Vec<u8>) -> Result<(), AllocError>
    requires { criteria ≤ 32 }
    ensures { Puts out.old.items out.new.items result (numbered item_text 0 (map (places_text criteria) roots.now)) }
{
    for place in 0..roots.len() {
        put_root(place, criteria, *roots.get(place), out)?;
    }
    Ok(())
}

/// Appends roots in brackets.
fn put_roots_text(criteria: u32, roots: &Masks, out: &mut Vec<u8>) -> Result<(), AllocError>
    requires { criteria ≤ 32 }
    ensures { Puts out.old.items out.new.items result (roots_text criteria roots.now) }
{
    put_text("roots [", out)?;
    put_roots(criteria, roots, out)?;
    put_text("]", out)
}

/// Appends coalitions of so many criteria.
fn put_coalitions(
    criteria: u32,
    coalitions: &Coalitions,
    out: &mut Vec<u8>,
) -> Result<(), AllocError>
    requires { criteria ≤ 32 }
    ensures { Puts out.old.items out.new.items result (coalitions_text criteria coalitions.now) }
{
    match coalitions {
        Coalitions::Weights(weights) => put_weights_text(weights, out),
        Coalitions::Roots(roots) => put_roots_text(criteria, roots, out),
    }
}

/// Appends the line of boundary `h`, from 1.
fn put_boundary(
    h: u32,
    criteria: u32,
    coalitions: &Coalitions,
    out: &mut Vec<u8>,
) -> Result<(), AllocError>
    requires { criteria ≤ 32 }
    ensures { Puts out.old.items out.new.items result (boundary_line criteria h coalitions.now) }
{
    put_counted("boundary ", h, ": ", out)?;
    put_coalitions(criteria, coalitions, out)?;
    put_text("\n", out)
}

/// Appends the lines of all boundaries.
fn put_boundaries(problem: &Problem, model: &Model, out: &mut Vec<u8>) -> Result<(), AllocError>
    requires { Belongs problem.now model.now }
    ensures { Puts out.old.items out.new.items result
        (numbered (boundary_line_at (length problem.now.criteria)) 0 model.now.coalitions) }
{
    let criteria = problem.criteria_count();
    let boundaries = problem.categories_count() - 1;
    for place in 0..boundaries {
        put_boundary(place + 1, criteria, model.coalitions(place + 1), out)?;
    }
    Ok(())
}

/// Appends the description of a model: a line with the numbers of criteria and boundaries, a line for each criterion
/// and boundary with the grades that are accepted, and a line for each boundary with its coalitions. Out of memory
/// leaves a prefix of it.
pub fn describe_model(problem: &Problem, model: &Model, out: &mut Vec<u8>) -> Result<(), AllocError>
    requires { Belongs problem.now model.now }
    ensures { Puts out.old.items out.new.items result (model_description problem.now model.now) }
{
    let criteria = problem.criteria_count();
    let boundaries = problem.categories_count() - 1;
    put_counted("model: ", criteria, " criteria, ", out)?;
    put_counted("", boundaries, " boundaries\n", out)?;
    put_accepted(problem, model, out)?;
    put_boundaries(problem, model, out)
}
