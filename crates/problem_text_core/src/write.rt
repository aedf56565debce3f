//! Writing a problem.
ghost use Rattle.std.specs.Prelude.{◌≡◌, OnOk};
ghost use Rattle.lists_core.specs.Puts.{Puts};
ghost use Rattle.problem_text_core.specs.ProblemText.{problem_text, ReadsBack};

use crate::criteria::{put_categories, put_criteria};
use problem_core::Problem;
use std::alloc::AllocError;
use written_core::put_text;

/// Appends the text of a problem. Read again, that text is the same problem. Out of memory, it leaves a prefix of the
/// text.
pub fn write_problem(problem: &Problem, out: &mut Vec<u8>) -> Result<(), AllocError>
    ensures text { Puts out.old.items out.new.items result (problem_text problem.now) }
    ensures reads { OnOk result (ReadsBack problem.now) }
{
    put_text(
        "kind: classification-problem\nformat_version: 1\ncriteria:\n",
        out,
    )?;
    put_criteria(problem, out)?;
    put_text("ordered_categories:\n", out)?;
    put_categories(problem, out)
}
