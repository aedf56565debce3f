//! What no clause says: that draws succeed with ample memory, and outside values of the words and of what they draw.
ghost use Rattle.std.specs.Prelude.{IfOk, ◌≤◌};
ghost use Rattle.model_core.specs.Model.{Belongs};

use crate::files::{problem_of, tree_of};
use draw_core::{draw_examples, draw_model, draw_problem, draw_table};
use model_core::{Coalitions, Model, read_model};
use problem_core::{Problem, Scale};
use rand_core::utils::NextWord;
use rand_pcg::Pcg32;
use std::alloc::{AllocError, Global};
use std::test::Fail;
use table_core::Examples;

/// A scale of names that need quotes, a falling scale with a negative bound, a scale of one number.
const QUOTED: &str = "kind: classification-problem
format_version: 1
criteria:
  - name: \"Mark, \\\"old\\\"\"
    value_type: enumerated
    ordered_values: [\"a, b\", \"c \\\"d\\\"\", e]
  - name: Loss
    value_type: real
    preference_direction: decreasing
    min_value: -1.5
    max_value: 2.5
  - name: Speed
    value_type: integer
    preference_direction: increasing
    min_value: 5
    max_value: 5
ordered_categories:
  - name: Bad
  - name: So, so
  - name: Good
";

/// Scales between the least and the greatest number that there is.
const WIDE: &str = "kind: classification-problem
format_version: 1
criteria:
  - name: Wide
    value_type: real
    preference_direction: increasing
  - name: Long
    value_type: integer
    preference_direction: decreasing
ordered_categories:
  - name: A
  - name: B
";

/// One criterion of one number, two categories.
const FIVE: &str = "kind: classification-problem
format_version: 1
criteria:
  - name: Speed
    value_type: integer
    preference_direction: increasing
    min_value: 5
    max_value: 5
ordered_categories:
  - name: Bad
  - name: Good
";

/// A model that asks for 5.
const AT_LEAST_FIVE: &str = "kind: ncs-classification-model
format_version: 1
accepted_values:
  - kind: thresholds
    thresholds: [5]
sufficient_coalitions:
  - kind: roots
    upset_roots: [[0]]
";

/// The model of a text.
fn model_of(alloc: Global, problem: &Problem, text: &str) -> Result<Model, Fail>
    ensures { IfOk result (λ m. Belongs problem.now m) }
{
    Ok(read_model(alloc, problem, &tree_of(alloc, text)?)?)
}

/// The model that a seed draws for a problem.
fn drawn_model(alloc: Global, problem: &Problem, seed: u64) -> Result<Model, AllocError>
    ensures { IfOk result (λ m. Belongs problem.now m) }
{
    draw_model(alloc, problem, seed)
}

/// The table of rows that a seed draws for a problem and its model.
fn rows_text(
    alloc: Global,
    problem: &Problem,
    model: &Model,
    rows: u32,
    seed: u64,
) -> Result<Vec<u8>, AllocError>
    requires belongs { Belongs problem.now model.now }
    requires rows { rows ≤ 100 }
{
    let mut text = Vec::new(alloc);
    draw_table(alloc, problem, model, rows, seed, &mut text)?;
    Ok(text)
}

/// A problem of a seed, a model of the next one, and a table of rows of the one after it.
fn drawn_text(
    alloc: Global,
    criteria: u32,
    categories: u32,
    rows: u32,
    seed: u64,
) -> Result<Vec<u8>, AllocError>
    requires criteria { 1 ≤ criteria }
    requires few { criteria ≤ 16 }
    requires categories { 2 ≤ categories }
    requires most { categories ≤ 10 }
    requires rows { rows ≤ 100 }
    requires seed { seed ≤ 1000000 }
{
    let problem = draw_problem(alloc, criteria, categories, seed)?;
    let model = drawn_model(alloc, &problem, seed + 1)?;
    rows_text(alloc, &problem, &model, rows, seed + 2)
}

/// The table of rows that a seed draws for a problem, and for a model of another seed.
fn table_text(
    alloc: Global,
    problem: &str,
    model_seed: u64,
    rows: u32,
    seed: u64,
) -> Result<Vec<u8>, Fail>
    requires { rows ≤ 100 }
{
    let problem = problem_of(alloc, problem)?;
    let model = drawn_model(alloc, &problem, model_seed)?;
    Ok(rows_text(alloc, &problem, &model, rows, seed)?)
}

/// Which of the four scales that are drawn a scale is.
#[derive(Clone, Copy, Debug, PartialEq, Eq)]
enum Kind {
    Rising,
    Falling,
    Whole,
    Names,
}

/// The kind of a scale.
fn kind_of(scale: &Scale) -> Kind {
    match scale {
        Scale::Rising(bounds) => {
            if bounds.whole {
                Kind::Whole
            } else {
                Kind::Rising
            }
        }
        Scale::Falling(_) => Kind::Falling,
        Scale::Named(_) => Kind::Names,
    }
}

/// The thresholds of a model, criterion by criterion; -1 for null.
fn thresholds_of(alloc: Global, model: &Model) -> Result<Vec<i128>, AllocError> {
    let mut all = Vec::new(alloc);
    for profile in model.profiles() {
        for threshold in profile.thresholds.as_slice() {
            match threshold {
                Some(grade) => all.push(grade.value())?,
                None => all.push(-1)?,
            }
        }
    }
    Ok(all)
}

/// The weights of a model, boundary by boundary.
fn weights_of(alloc: Global, model: &Model) -> Result<Vec<i128>, AllocError> {
    let mut all = Vec::new(alloc);
    for coalitions in model.all_coalitions() {
        if let Coalitions::Weights(weights) = coalitions {
            for weight in weights.as_slice() {
                all.push(weight.units())?;
            }
        }
    }
    Ok(all)
}

/// The grades of each example and its category.
fn numbers_of(alloc: Global, examples: &Examples) -> Result<Vec<i128>, AllocError> {
    let mut all = Vec::new(alloc);
    for row in 0..examples.count() {
        for grade in examples.grades(row) {
            all.push(grade.value())?;
        }
        all.push(i128::from(examples.category(row)))?;
    }
    Ok(all)
}

/// The kinds of a problem's scales.
fn kinds_of(alloc: Global, problem: &Problem) -> Result<Vec<Kind>, AllocError> {
    let mut all = Vec::new(alloc);
    for i in 0..problem.criteria_count() {
        all.push(kind_of(&problem.criterion(i).scale))?;
    }
    Ok(all)
}

#[test]
fn the_generator_gives_the_published_words(rt: HostRuntime) -> Result<(), Fail> {
    // The first words of the demonstration program of PCG, with seed 42 and stream 54.
    let mut generator = Pcg32::new(42, 54);
    for word in [
        0xa15c02b7u32,
        0x7b47f409,
        0xba1d3330,
        0x83d2f293,
        0xbfa4784b,
        0xcbed606e,
    ] {
        assert_eq!(rt; generator.next_word(), word);
    }
    Ok(())
}

#[test]
fn seeds_have_their_words(rt: HostRuntime) -> Result<(), Fail> {
    let words = [
        (0u64, [257813417u32, 407017181, 896943092, 4175973425]),
        (1, [3380776849, 361947764, 3223725655, 2781001427]),
        (42, [1307692281, 3850602322, 1491967504, 4091771729]),
        (u64::MAX, [3795398737, 3572406950, 1916827069, 3687248187]),
    ];
    for (seed, want) in words {
        let mut generator = Pcg32::new(seed, 1);
        for word in want {
            assert_eq!(rt; generator.next_word(), word, "at {seed}");
        }
    }
    Ok(())
}

/// The kinds of the sixteen scales that seed 2024 draws.
fn sixteen_kinds(alloc: Global) -> Result<Vec<Kind>, AllocError> {
    let problem = draw_problem(alloc, 16, 10, 2024)?;
    kinds_of(alloc, &problem)
}

#[test]
fn a_problem_has_a_scale_for_each_word(rt: HostRuntime) -> Result<(), Fail> {
    let kinds = [
        Kind::Rising,
        Kind::Falling,
        Kind::Whole,
        Kind::Names,
        Kind::Names,
        Kind::Rising,
        Kind::Falling,
        Kind::Whole,
        Kind::Whole,
        Kind::Whole,
        Kind::Falling,
        Kind::Whole,
        Kind::Rising,
        Kind::Rising,
        Kind::Names,
        Kind::Names,
    ];
    assert!(rt; sixteen_kinds(rt.alloc())?.as_slice() == &kinds[..]);
    Ok(())
}

/// The problem of four criteria and three categories that seed 41 draws.
fn problem_of_four(alloc: Global) -> Result<Problem, AllocError> {
    draw_problem(alloc, 4, 3, 41)
}

#[test]
fn a_model_has_thresholds_in_order_and_weights_rounded_up(rt: HostRuntime) -> Result<(), Fail> {
    let problem = problem_of_four(rt.alloc())?;
    let model = drawn_model(rt.alloc(), &problem, 42)?;
    let thresholds = [
        567000000000000000i128,
        896000000000000000,
        2000000000000000000,
        4000000000000000000,
        476000000000000000,
        810000000000000000,
        432000000000000000,
        424000000000000000,
    ];
    let weights = [
        20592020592020593i128,
        289575289575289576,
        994851994851994852,
        425997425997425998,
        20592020592020593,
        289575289575289576,
        994851994851994852,
        425997425997425998,
    ];
    assert!(rt; thresholds_of(rt.alloc(), &model)?.as_slice() == &thresholds[..]);
    assert!(rt; weights_of(rt.alloc(), &model)?.as_slice() == &weights[..]);
    Ok(())
}

#[test]
fn tables_have_their_rows(rt: HostRuntime) -> Result<(), Fail> {
    let text = drawn_text(rt.alloc(), 3, 2, 2, 1)?;
    let want = "name,Criterion 1,Criterion 2,Criterion 3,category\n\
        Alternative 1,0.138,0.455,v1,Category 2\n\
        Alternative 2,0.48,0.94,v4,Category 2\n";
    assert!(rt; text.as_slice() == want.as_bytes());
    let text = drawn_text(rt.alloc(), 4, 3, 6, 41)?;
    let want = "name,Criterion 1,Criterion 2,Criterion 3,Criterion 4,category\n\
        Alternative 1,0.521,91,0.889,0.856,Category 3\n\
        Alternative 2,0.095,94,0.039,0.492,Category 1\n\
        Alternative 3,0.411,94,0.22,0.135,Category 1\n\
        Alternative 4,0.527,3,0.798,0.387,Category 2\n\
        Alternative 5,0.78,44,0.997,0.404,Category 3\n\
        Alternative 6,0.729,37,0.844,0.345,Category 3\n";
    assert!(rt; text.as_slice() == want.as_bytes());
    Ok(())
}

#[test]
fn a_table_of_no_rows_is_its_header(rt: HostRuntime) -> Result<(), Fail> {
    let text = drawn_text(rt.alloc(), 2, 2, 0, 5)?;
    let want = "name,Criterion 1,Criterion 2,category\n";
    assert!(rt; text.as_slice() == want.as_bytes());
    Ok(())
}

#[test]
fn names_are_quoted(rt: HostRuntime) -> Result<(), Fail> {
    let text = table_text(rt.alloc(), QUOTED, 7, 5, 9)?;
    let want = "name,\"Mark, \"\"old\"\"\",Loss,Speed,category\n\
        Alternative 1,e,0.724,5,Good\n\
        Alternative 2,\"a, b\",-0.872,5,Good\n\
        Alternative 3,\"c \"\"d\"\"\",1.192,5,Good\n\
        Alternative 4,e,0.6,5,Good\n\
        Alternative 5,\"a, b\",-1,5,Good\n";
    assert!(rt; text.as_slice() == want.as_bytes());
    Ok(())
}

#[test]
fn the_widest_scales_are_drawn_from(rt: HostRuntime) -> Result<(), Fail> {
    let text = table_text(rt.alloc(), WIDE, 3, 3, 4)?;
    let want = "name,Wide,Long,category\n\
        Alternative 1,22000000000000000,440000000000000000,A\n\
        Alternative 2,988000000000000000,208000000000000000,A\n\
        Alternative 3,-168000000000000000,844000000000000000,A\n";
    assert!(rt; text.as_slice() == want.as_bytes());
    Ok(())
}

/// The table of two rows that seed 9 draws for the problem of one number and its model.
fn text_of_fives(alloc: Global) -> Result<Vec<u8>, Fail> {
    let problem = problem_of(alloc, FIVE)?;
    let model = model_of(alloc, &problem, AT_LEAST_FIVE)?;
    Ok(rows_text(alloc, &problem, &model, 2, 9)?)
}

#[test]
fn a_scale_of_one_number_has_one_cell(rt: HostRuntime) -> Result<(), Fail> {
    let text = text_of_fives(rt.alloc())?;
    let want = "name,Speed,category\nAlternative 1,5,Good\nAlternative 2,5,Good\n";
    assert!(rt; text.as_slice() == want.as_bytes());
    Ok(())
}

/// The numbers of the six examples that seed 43 draws for the problem of four criteria and the model of seed 42.
fn numbers_of_six(alloc: Global) -> Result<Vec<i128>, AllocError> {
    let problem = problem_of_four(alloc)?;
    let model = drawn_model(alloc, &problem, 42)?;
    let examples = draw_examples(alloc, &problem, &model, 6, 43)?;
    numbers_of(alloc, &examples)
}

#[test]
fn examples_are_the_rows_of_the_table(rt: HostRuntime) -> Result<(), Fail> {
    let numbers = [
        521000000000000000i128,
        91000000000000000000,
        889000000000000000,
        856000000000000000,
        2,
        95000000000000000,
        94000000000000000000,
        39000000000000000,
        492000000000000000,
        0,
        411000000000000000,
        94000000000000000000,
        220000000000000000,
        135000000000000000,
        0,
        527000000000000000,
        3000000000000000000,
        798000000000000000,
        387000000000000000,
        1,
        780000000000000000,
        44000000000000000000,
        997000000000000000,
        404000000000000000,
        2,
        729000000000000000,
        37000000000000000000,
        844000000000000000,
        345000000000000000,
        2,
    ];
    assert!(rt; numbers_of_six(rt.alloc())?.as_slice() == &numbers[..]);
    Ok(())
}
