//! The text of a problem, and that it reads back as the same problem.
#![tactic(auto)]

mod criteria;
mod put;
mod scale;
mod write;

ghost use Rattle.problem_core.specs.Problem.{ProblemValue, IsProblem};
ghost use Rattle.problem_text_core.specs.ProblemText.{IsKept, ReadsBack};

pub use write::write_problem;

/// A law, with no code: the text of a problem has at most 64 MiB, its bytes read as a tree of at most 16,777,216 nodes,
/// and that tree reads as the same problem.
pub fn written_problem_reads_back()
    ensures { (problem : ProblemValue) → IsProblem problem → IsKept problem → ReadsBack problem }
{}
