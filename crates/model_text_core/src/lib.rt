//! The text of a model, and that it reads back as the same model.
#![tactic(auto)]

mod accepted;
mod coalitions;
mod places;
mod roots;
mod same;
mod thresholds;
mod weights;
mod write;

ghost use Rattle.std.specs.Prelude.{List, All};
ghost use Rattle.problem_core.specs.Problem.{ProblemValue, IsProblem};
ghost use Rattle.sorting_rule.specs.Examples.{Example};
ghost use Rattle.sorting_rule.specs.Rebuilt.{Learns};
ghost use Rattle.model_core.specs.Model.{ModelValue, Belongs, rule_of};
ghost use Rattle.model_text_core.specs.ModelText.{HasUtf8Names, HaveFewRoots, ReadsBack, ReadsWhole};

pub use places::put_places;
pub use weights::put_weights;
pub use write::write_model;

/// A law, with no code: the text of a model that belongs to its problem has a tree, and that tree reads as the same
/// model. If the tree has at most 16,777,216 nodes, the bytes of the text read as that tree.
pub fn written_model_reads_back()
    ensures { (problem : ProblemValue) (m : ModelValue) → IsProblem problem
        → All (λ criterion. HasUtf8Names criterion.scale) problem.criteria → Belongs problem m → ReadsBack problem m }
{}

/// A law, with no code: a model with at most 65,536 roots for each boundary has a text of fewer nodes than the most
/// that reading allows. If the text has a tree that reads as the model, its bytes read as that model.
pub fn text_of_few_roots_reads_back()
    ensures { (problem : ProblemValue) (m : ModelValue) → IsProblem problem → Belongs problem m → HaveFewRoots m
        → ReadsBack problem m → ReadsWhole problem m }
{}

/// A law, with no code: so does the text of a learned model, whose roots are few.
pub fn text_of_learned_model_reads_back()
    ensures { (problem : ProblemValue) (m : ModelValue) (examples : List Example) → IsProblem problem
        → Belongs problem m
        → Learns examples (rule_of problem m) → ReadsBack problem m → ReadsWhole problem m }
{}
