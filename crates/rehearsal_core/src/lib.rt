//! Rehearsals: a problem, a model and rows are drawn, and a model is learned from these rows alone.
#![tactic(auto)]

mod rehearsal;
mod summary;

ghost use Rattle.std.specs.Prelude.{◌≡◌, ◌++◌, ℕ, List, length};
ghost use Rattle.sorting_rule.specs.Examples.{Example};
ghost use Rattle.problem_core.specs.Problem.{ProblemValue};
ghost use Rattle.model_core.specs.Model.{ModelValue};
ghost use Rattle.model_text_core.specs.ModelText.{model_text};
ghost use Rattle.rehearsal_core.specs.Rehearsed.{counts_text, restored_line, IsSummary, rehearsed_examples};
ghost use Rattle.rehearsal_core.specs.Rehearsed.{rehearsed_problem};

pub use learn_core::LearnFault;
pub use rehearsal::{MOST_LEMMAS, Rehearsal, rehearse};

/// A law, with no code: each summary of examples says that all of them are restored. So whichever model is learned, the
/// lines before it are the same.
pub fn summary_says_that_all_are_restored()
    ensures { (problem : ProblemValue) (examples : List Example) (text : List ℕ) → IsSummary problem examples text
        → (model : ModelValue) × (text ≡ counts_text problem examples
        ++ (restored_line (length examples) (length examples) ++ model_text problem model)) }
{}

/// A law: what is drawn has as many criteria, categories and rows as asked. So the first lines of the summary say these
/// numbers.
pub fn rehearsals_are_as_large_as_asked()
    ensures criteria { (criteria categories seed : ℕ)
        → length (rehearsed_problem criteria categories seed).criteria ≡ criteria }
    ensures categories { (criteria categories seed : ℕ)
        → length (rehearsed_problem criteria categories seed).categories ≡ categories }
    ensures rows { (criteria categories rows seed : ℕ)
        → length (rehearsed_examples criteria categories rows seed) ≡ rows }
{}
