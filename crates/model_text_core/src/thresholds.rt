//! Writing thresholds.
ghost use Rattle.std.specs.Prelude.{◌≡◌, ◌++◌, All, map};
ghost use Rattle.lists_core.specs.Puts.{Puts};
ghost use Rattle.written_core.specs.Document.{flow_text, scalar_text};
ghost use Rattle.model_core.specs.Model.{IsThreshold};
ghost use Rattle.model_text_core.specs.ModelText.{threshold_scalar};
ghost use Rattle.written_core.specs.Parts.{comma};

use problem_core::{Criterion, Grade, put_quoted_grade};
use std::alloc::AllocError;
use written_core::{put_comma, put_text};

/// Appends a threshold.
fn put_threshold(
    criterion: &Criterion,
    threshold: Option<Grade>,
    out: &mut Vec<u8>,
) -> Result<(), AllocError>
    requires { IsThreshold criterion.now.scale threshold }
    ensures { Puts out.old.items out.new.items result (scalar_text (threshold_scalar criterion.now.scale threshold)) }
{
    match threshold {
        None => put_text("null", out),
        Some(grade) => put_quoted_grade(criterion, grade, out),
    }
}

/// Appends the threshold at a place of a flow list, behind a comma if it isn't the first.
fn put_item(
    criterion: &Criterion,
    place: usize,
    threshold: Option<Grade>,
    out: &mut Vec<u8>,
) -> Result<(), AllocError>
    requires { IsThreshold criterion.now.scale threshold }
    ensures { Puts out.old.items out.new.items result
        (comma place ++ scalar_text (threshold_scalar criterion.now.scale threshold)) }
{
    put_comma(place, out)?;
    put_threshold(criterion, threshold, out)
}

/// Appends thresholds as a flow list.
pub fn put_thresholds(
    criterion: &Criterion,
    thresholds: &[Option<Grade>],
    out: &mut Vec<u8>,
) -> Result<(), AllocError>
    requires { All (IsThreshold criterion.now.scale) thresholds.now }
    ensures { Puts out.old.items out.new.items result
        (flow_text (map (threshold_scalar criterion.now.scale) thresholds.now)) }
{
    put_text("[", out)?;
    for (i, threshold) in thresholds.iter().enumerate() {
        put_item(criterion, i, *threshold, out)?;
    }
    put_text("]", out)
}
