//! Writing what each criterion accepts.
ghost use Rattle.std.specs.Prelude.{◌≡◌, All, OnOk};
ghost use Rattle.lists_core.specs.Puts.{Puts};
ghost use Rattle.model_core.specs.Model.{Belongs, IsThreshold};
ghost use Rattle.model_text_core.specs.ModelText.{HasUtf8Names};
ghost use Rattle.model_text_core.specs.Parts.{accepted_text, thresholds_text};

use crate::thresholds::put_thresholds;
use model_core::{Model, Profile};
use problem_core::{Criterion, Problem, Scale};
use std::alloc::AllocError;
use written_core::put_text;

/// The number of names of a scale; 0 for a scale of numbers.
fn names_count(scale: &Scale) -> u32
    ensures { HasUtf8Names scale.now }
{
    match scale {
        Scale::Rising(_) => 0,
        Scale::Falling(_) => 0,
        Scale::Named(names) => names.len(),
    }
}

/// Appends the lines of a criterion.
fn put_criterion(
    criterion: &Criterion,
    profile: &Profile,
    out: &mut Vec<u8>,
) -> Result<(), AllocError>
    requires { All (IsThreshold criterion.now.scale) profile.now.thresholds }
    ensures text { Puts out.old.items out.new.items result
        (thresholds_text criterion.now.scale profile.now.thresholds) }
    ensures names { HasUtf8Names criterion.now.scale }
{
    let _names = names_count(&criterion.scale);
    put_text("  - kind: thresholds\n    thresholds: ", out)?;
    put_thresholds(criterion, profile.thresholds.as_slice(), out)?;
    put_text("\n", out)
}

/// Appends the lines of each criterion.
pub fn put_accepted(problem: &Problem, model: &Model, out: &mut Vec<u8>) -> Result<(), AllocError>
    requires { Belongs problem.now model.now }
    ensures text { Puts out.old.items out.new.items result (accepted_text problem.now.criteria model.now.profiles) }
    ensures names { OnOk result (All (λ criterion. HasUtf8Names criterion.scale) problem.now.criteria) }
{
    for i in 0..problem.criteria_count() {
        put_criterion(problem.criterion(i), model.profile(i), out)?;
    }
    Ok(())
}
