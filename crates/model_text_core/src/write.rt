//! Writing a model.
ghost use Rattle.std.specs.Prelude.{◌≡◌, OnOk};
ghost use Rattle.lists_core.specs.Puts.{Puts};
ghost use Rattle.model_core.specs.Model.{Belongs};
ghost use Rattle.model_text_core.specs.ModelText.{model_text, ReadsBack};

use crate::accepted::put_accepted;
use crate::coalitions::put_coalitions;
use model_core::Model;
use problem_core::Problem;
use std::alloc::AllocError;
use written_core::put_text;

/// Appends the text of a model that belongs to the problem. Read again for the problem, that text is the same model if
/// its tree has at most 16,777,216 nodes. Out of memory, it leaves a prefix of the text.
pub fn write_model(problem: &Problem, model: &Model, out: &mut Vec<u8>) -> Result<(), AllocError>
    requires { Belongs problem.now model.now }
    ensures text { Puts out.old.items out.new.items result (model_text problem.now model.now) }
    ensures reads { OnOk result (ReadsBack problem.now model.now) }
{
    let count = problem.criteria_count();
    let _categories = problem.categories_count();
    put_text(
        "kind: ncs-classification-model\nformat_version: 1\naccepted_values:\n",
        out,
    )?;
    put_accepted(problem, model, out)?;
    put_text("sufficient_coalitions:\n", out)?;
    put_coalitions(count, model.all_coalitions(), out)
}
